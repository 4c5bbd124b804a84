// Whole lists of calls, and the promise about every one of them.
ghost use Rattle.std.specs.Prelude.{◌≡◌, List, ◌++◌};
ghost use Rattle.places.specs.Books.{empty_book};
ghost use Rattle.custody.specs.Exchanges.{asked_of, calls_of, replied_of};
ghost use Rattle.custody.specs.Ledger.{all_after};
ghost use Rattle.custody.specs.Promise.{Asked, Replied, given, replies, Kept, Upheld};
ghost use Rattle.keying.specs.Drafts.{told_by as drafted};
ghost use Rattle.custody.specs.Stations.{key_of, shown_by, told_by, Leaves};
ghost use Rattle.custody.specs.declared.call.Call.{Call as Calls};

use crate::exchange::Exchange;
use crate::station::Station;
use keying::draft::Draft;
use places::register::Register;
use ring::engine::RingEngine;

impl<P: RingEngine, Q: RingEngine> Station<P, Q> {
    // Gives up a draft for a station with the same key and engines and eight empty places.
    pub fn commission(draft: Draft<P, Q>) -> Station<P, Q>
        ensures key { key_of result ≡ draft.key }
        ensures engines { result.engines ≡ draft.engines }
        ensures places { shown_by result ≡ empty_book }
    {
        let (key, engines) = draft.into_parts();
        Station {
            register: Register::new(key),
            engines,
        }
    }

    // Carries out a list of calls, each with its own buffer: from any past that keeps the promise
    // to that past and the list, with every answer and every buffer as the ledger has them.
    pub fn carry_out(&mut self, exchanges: &mut [Exchange<'_>])
        ensures calls { calls_of exchanges.new ≡ calls_of exchanges.old }
        ensures replied { replied_of exchanges.new ≡ given (replies (key_of self.old) (told_by P.RingEngine Q.RingEngine self.old) (shown_by self.old) (asked_of exchanges.old)) }
        ensures leaves { Leaves P.RingEngine Q.RingEngine self.old self.new (all_after (key_of self.old) (told_by P.RingEngine Q.RingEngine self.old) (shown_by self.old) (calls_of exchanges.old)) }
        ensures kept { (past : List Calls) → Kept (key_of self.old) (told_by P.RingEngine Q.RingEngine self.old) past (shown_by self.old) → Kept (key_of self.old) (told_by P.RingEngine Q.RingEngine self.old) (past ++ calls_of exchanges.old) (shown_by self.new) }
        ensures upheld { (asked : List Asked) (replied : List Replied) → Upheld (key_of self.old) (told_by P.RingEngine Q.RingEngine self.old) asked replied (shown_by self.old) → Upheld (key_of self.old) (told_by P.RingEngine Q.RingEngine self.old) (asked ++ asked_of exchanges.old) (replied ++ replied_of exchanges.new) (shown_by self.new) }
    {
        for x in exchanges.iter_mut() {
            let call = x.call;
            let answer = self.perform(call, x.buffer.as_mut_slice());
            x.answer = Some(answer);
        }
    }
}

// Commissions a draft and carries out a list of calls: whatever the draft, the engines and the list,
// the station matches its ledger, every filled place is near its due words and opens to its due bits,
// and no fair deposit is declined.
pub fn replay<P: RingEngine, Q: RingEngine>(
    draft: Draft<P, Q>,
    exchanges: &mut [Exchange<'_>],
) -> Station<P, Q>
    ensures key { key_of result ≡ draft.key }
    ensures told { told_by P.RingEngine Q.RingEngine result ≡ drafted P.RingEngine Q.RingEngine draft }
    ensures calls { calls_of exchanges.new ≡ calls_of exchanges.old }
    ensures replied { replied_of exchanges.new ≡ given (replies draft.key (drafted P.RingEngine Q.RingEngine draft) empty_book (asked_of exchanges.old)) }
    ensures kept { Kept draft.key (drafted P.RingEngine Q.RingEngine draft) (calls_of exchanges.old) (shown_by result) }
    ensures upheld { Upheld draft.key (drafted P.RingEngine Q.RingEngine draft) (asked_of exchanges.old) (replied_of exchanges.new) (shown_by result) }
{
    let mut station = Station::commission(draft);
    station.carry_out(exchanges);
    station
}
