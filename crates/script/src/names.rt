// The names of the calls of a station, and of the tasks away from drafts and stations.
ghost use Rattle.std.specs.Prelude.{◌≡◌};
ghost use Rattle.script.specs.Names.{call_name, task_name};

#[derive(Clone, Copy, PartialEq, Eq, Debug)]
pub(crate) enum CallName {
    Deposit,
    Join,
    Trim,
    Clear,
    Open,
    HandOut,
    Publish,
    Tell,
    Alike,
}

#[derive(Clone, Copy, PartialEq, Eq, Debug)]
pub(crate) enum TaskName {
    Seal,
    Unseal,
    Pack,
    Unpack,
    Multiply,
}

impl CallName {
    // The call that a word names, if it names one.
    pub(crate) fn of(word: &[u8]) -> Option<CallName>
        ensures { result ≡ call_name word.now }
    {
        match word {
            b"deposit" => Some(CallName::Deposit),
            b"join" => Some(CallName::Join),
            b"trim" => Some(CallName::Trim),
            b"clear" => Some(CallName::Clear),
            b"open" => Some(CallName::Open),
            b"handout" => Some(CallName::HandOut),
            b"publish" => Some(CallName::Publish),
            b"tell" => Some(CallName::Tell),
            b"alike" => Some(CallName::Alike),
            _ => None,
        }
    }
}

impl TaskName {
    // The task that a word names, if it names one. Not one function with `CallName::of`: each is the table of its own names.
    pub(crate) fn of(word: &[u8]) -> Option<TaskName>
        ensures { result ≡ task_name word.now }
    {
        match word {
            b"seal" => Some(TaskName::Seal),
            b"unseal" => Some(TaskName::Unseal),
            b"pack" => Some(TaskName::Pack),
            b"unpack" => Some(TaskName::Unpack),
            b"multiply" => Some(TaskName::Multiply),
            _ => None,
        }
    }
}
