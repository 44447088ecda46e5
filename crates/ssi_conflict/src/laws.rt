//! Laws of the calls of a conflict tracker, each proved as the contract of a function that does nothing: which pairs
//! and pivots stand, which of them a call can make, and which transactions need not be remembered.

ghost use Rattle.ssi_conflict.specs.Laws.{PairsAreFound, PivotsAreNamed, OrderedPivotsAreNamed, OrderedPivotsArePivots, PairsStay, BeginsMakeNoPair, AbortsMakeNoPair, NewPairsAreKept, ForgottenForGood, NewPivotsAreKept, NewOrderedPivotsAreKept, CommitMakesOwnPivot, ReadMakesWritersPivots, ReadMakesWritersOrderedPivots};

/// The pairs that the calls add one by one are exactly those that one finds by looking back over all calls. So the
/// anti-dependencies between concurrent transactions (Cahill, Röhm and Fekete 2008, section 3) can be noted as they
/// arise.
pub fn pairs_are_found()
    ensures { PairsAreFound }
{}

/// The two-pair rule names the smallest pivot if there is one, and nothing otherwise. So a call is refused exactly if
/// it would leave a transaction with a pair into it and a pair out of it (Cahill, Röhm and Fekete 2008, section 3).
pub fn pivots_are_named()
    ensures { PivotsAreNamed }
{}

/// The commit-order rule names the smallest of its pivots if there is one, and nothing otherwise. So it refuses only
/// what the order of the commits makes dangerous (Ports and Grittner 2012, section 3.3).
pub fn ordered_pivots_are_named()
    ensures { OrderedPivotsAreNamed }
{}

/// Each pivot of the commit-order rule is one of the two-pair rule. So it refuses no transaction that the two-pair
/// rule would let pass (Ports and Grittner 2012, section 3.3).
pub fn ordered_pivots_are_pivots()
    ensures { OrderedPivotsArePivots }
{}

/// A pair stays for good. So a tracker never has to take one back.
pub fn pairs_stay()
    ensures { PairsStay }
{}

/// Beginning and aborting make no pair. So neither is ever refused.
pub fn quiet_calls_make_no_pair()
    ensures begins { BeginsMakeNoPair }
    ensures aborts { AbortsMakeNoPair }
{}

/// Both transactions of a pair that comes with a call are kept before that call. So the others can come into no new
/// pair, and a tracker may forget them.
pub fn new_pairs_are_kept()
    ensures { NewPairsAreKept }
{}

/// A transaction that isn't kept is never kept again. So what a tracker has forgotten is never asked for.
pub fn forgotten_for_good()
    ensures { ForgottenForGood }
{}

/// A pivot that comes with a call is kept before that call, by either rule. So only kept transactions have to be
/// looked at.
pub fn new_pivots_are_kept()
    ensures two_pair { NewPivotsAreKept }
    ensures commit_order { NewOrderedPivotsAreKept }
{}

/// By the commit-order rule a commit makes no pivot but of its own transaction, since its stamp is the greatest so
/// far. So a commit has only its own pairs to look at (Ports and Grittner 2012, section 3.3).
pub fn commit_makes_own_pivot()
    ensures { CommitMakesOwnPivot }
{}

/// A read makes only pivots of writers with which its reader comes into a pair, by either rule. So a read has only the
/// writers of the keys that it meets to look at.
pub fn read_makes_writers_pivots()
    ensures two_pair { ReadMakesWritersPivots }
    ensures commit_order { ReadMakesWritersOrderedPivots }
{}
