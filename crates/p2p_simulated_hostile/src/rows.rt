//! Lists of calls with the answer to each, a row each (`crate::calls`).

/// The second message of a pair starts once it can no longer overtake the first.
pub const WAITING: &str = "\
limit 0 1 500 - :
enqueue 0 1 2 0 1000 500000000 1 :
enqueue 0 1 2 1 500 100000000 1 :
next : next 2000000000
advance 2000000000 : done 1 2 0 1000 2500000000
next : next 2400000000
advance 2400000000 :
next : next 3400000000
advance 3400000000 : done 1 2 1 500 3500000000
next : next -";

/// Of two pairs all that waits is done at once when the cap goes.
pub const LIFTED: &str = "\
limit 0 1 1000 - :
enqueue 0 1 2 0 100 0 1 :
enqueue 0 1 2 1 0 0 1 :
enqueue 0 1 2 2 50 0 1 :
enqueue 0 1 3 3 100 0 1 :
enqueue 0 1 3 4 50 0 1 :
limit 0 1 - - : done 1 2 0 100 0 done 1 3 3 100 0 done 1 2 1 0 0 done 1 3 4 50 0 done 1 2 2 50 0
next : next -";

/// At one moment a message finishes, and then another of its pair starts.
pub const FINISHING: &str = "\
limit 0 1 1000 - :
enqueue 0 1 2 0 500 500000000 1 :
next : next 500000000
enqueue 0 1 2 1 0 0 1 :
enqueue 0 1 3 2 1000 0 1 :
next : next 1000000000
advance 1000000000 : done 1 2 0 500 1500000000
next : next 1500000000
advance 1500000000 : done 1 3 2 1000 1500000000 done 1 2 1 0 1500000000
next : next -";

/// A cap changes while a message is in flight.
pub const SLOWED: &str = "\
limit 0 1 1000 - :
enqueue 0 1 2 0 1000 0 1 :
limit 500000000 1 250 - :
next : next 2500000000
advance 2500000000 : done 1 2 0 1000 2500000000
next : next -";

/// Of three messages of a pair each has a shorter way than the one before it.
pub const SHORTER: &str = "\
limit 0 1 1000 - :
enqueue 0 1 2 0 3000 10000000000 1 :
enqueue 0 1 2 1 1000 8000000000 1 :
enqueue 0 1 2 2 1000 2000000000 1 :
next : next 3000000000
advance 3000000000 : done 1 2 0 3000 13000000000
next : next 5000000000
advance 5000000000 :
next : next 6000000000
advance 6000000000 : done 1 2 1 1000 14000000000
next : next 12000000000
advance 12000000000 :
next : next 13000000000
advance 13000000000 : done 1 2 2 1000 15000000000
next : next -";

/// A link has a cap of its own, which changes.
pub const LINKED: &str = "\
limitlink 0 1 2 100 :
enqueue 0 1 2 0 100 0 1 :
enqueue 0 1 3 1 100 0 1 : done 1 3 1 100 0
next : next 1000000000
limitlink 500000000 1 2 25 :
next : next 2500000000
advance 2500000000 : done 1 2 0 100 2500000000
next : next -";
