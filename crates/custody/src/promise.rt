// The promise about every list of calls, as far as it speaks of the ledger alone.
ghost use Rattle.std.specs.Prelude.{◌≡◌, List};
ghost use Rattle.keying.specs.declared.key.Key.{Key as Keys};
ghost use Rattle.keying.specs.Told.{Told};
ghost use Rattle.places.specs.Books.{Book};
ghost use Rattle.custody.specs.Ledger.{ledger_of};
ghost use Rattle.custody.specs.Promise.{Asked, Replied, Matches, Kept, Upheld};
ghost use Rattle.custody.specs.declared.call.Call.{Call as Calls};

// Places that match the ledger keep the promise.
pub fn matching_keeps()
    ensures { (key : Keys) (told : Told) (calls : List Calls) (book : Book) → book ≡ (ledger_of key told calls).lines → Kept key told calls book }
{}

// A station that matches its ledger in its replies too upholds all of the promise.
pub fn matching_upholds()
    ensures { (key : Keys) (told : Told) (asked : List Asked) (replied : List Replied) (book : Book) → Matches key told asked replied book → Upheld key told asked replied book }
{}
