use super::transcript::{Failure, follows};

/// Requests at the limits, and one above them.
const LIMITS: &str = r#"
# A concept has at most 64 levels.
> {"op":"peers","names":["a"]}
< {"id":1,"peers":1}
> {"op":"put","peer":"a","axioms":["(implies ~64*(not ~A~64*)~ B)"]}
< {"code":11,"error":"concept_limit","id":2,"n":0}
> {"op":"put","peer":"a","axioms":["(implies B ~64*(not ~A~64*)~)"]}
< {"code":11,"error":"concept_limit","id":3,"n":0}
> {"op":"put","peer":"a","axioms":["(implies ~63*(not ~A~63*)~ ~63*(not ~A~63*)~)"]}
< {"id":4,"put":"a","version":1}
---
# A concept has at most 1,000 nodes: 30 times a conjunction with 32 nodes on its left, and 10 or 11 nodes at the end.
> {"op":"peers","names":["a"]}
< {"id":1,"peers":1}
> {"op":"put","peer":"a","axioms":["(implies ~30*(and ^31*(not ^A^31*)^ ~^10*(not ^A^10*)^~30*)~ B)"]}
< {"code":11,"error":"concept_limit","id":2,"n":0}
> {"op":"put","peer":"a","axioms":["(implies B ~30*(and ^31*(not ^A^31*)^ ~^10*(not ^A^10*)^~30*)~)"]}
< {"code":11,"error":"concept_limit","id":3,"n":0}
> {"op":"put","peer":"a","axioms":["(implies ~30*(and ^31*(not ^A^31*)^ ~^9*(not ^A^9*)^~30*)~ ~30*(and ^31*(not ^A^31*)^ ~^9*(not ^A^9*)^~30*)~)"]}
< {"id":4,"put":"a","version":1}
---
# A name has at most 64 bytes.
> {"op":"peers","names":["a"]}
< {"id":1,"peers":1}
> {"op":"put","peer":"a","axioms":["(implies aB0_-.:8901234567890123456789012345678901234567890123456789012345 top)"]}
< {"code":3,"error":"bad_concept","id":2,"n":0}
> {"op":"put","peer":"a","axioms":["(implies aB0_-.:890123456789012345678901234567890123456789012345678901234 top)"]}
< {"id":3,"put":"a","version":1}
---
# The texts of a check come before its pin.
> {"op":"peers","names":["a"]}
< {"id":1,"peers":1}
> {"op":"check","peer":"a","left":"A","right":"~63*(not ~A~63*)~","pin":[0],"cert":{"format":1,"kind":"no","links":[],"locals":[{"names":[["A",0]],"roles":[],"size":1}]}}
< {"check":"valid","id":2}
> {"op":"check","peer":"a","left":"A","right":"~63*(not ~A~63*)~","pin":[1],"cert":{"format":1,"kind":"no","links":[],"locals":[{"names":[["A",0]],"roles":[],"size":1}]}}
< {"code":18,"error":"bad_pin","id":3}
> {"op":"check","peer":"a","left":"A","right":"~64*(not ~A~64*)~","pin":[1],"cert":{"format":1,"kind":"no","links":[],"locals":[{"names":[["A",0]],"roles":[],"size":1}]}}
< {"code":11,"error":"concept_limit","id":4,"n":1}
> {"op":"check","peer":"a","left":"(","right":"~63*(not ~A~63*)~","pin":[0],"cert":{"format":1,"kind":"no","links":[],"locals":[{"names":[["A",0]],"roles":[],"size":1}]}}
< {"code":3,"error":"bad_concept","id":5,"n":0}
> {"op":"check","peer":"a","left":"(not A","right":"~64*(not ~A~64*)~","pin":[1],"cert":{"format":1,"kind":"no","links":[],"locals":[{"names":[["A",0]],"roles":[],"size":1}]}}
< {"code":3,"error":"bad_concept","id":6,"n":0}
---
# A role leads from each of two elements to both: no part of a concept is judged anew for each way that leads to it.
> {"op":"peers","names":["a"]}
< {"id":1,"peers":1}
> {"op":"check","peer":"a","left":"top","right":"bottom","pin":[0],"cert":{"format":1,"kind":"no","links":[],"locals":[{"names":[],"roles":[["r",0,0],["r",0,1],["r",1,0],["r",1,1]],"size":2}]}}
< {"check":"valid","id":2}
> {"op":"check","peer":"a","left":"top","right":"~63*(all r ~top~63*)~","pin":[0],"cert":{"format":1,"kind":"no","links":[],"locals":[{"names":[],"roles":[["r",0,0],["r",0,1],["r",1,0],["r",1,1]],"size":2}]}}
< {"check":"invalid","fault":"not_counter","id":3}
# Nor is each element looked at that no list mentions.
> {"op":"check","peer":"a","left":"top","right":"~63*(all r ~bottom~63*)~","pin":[0],"cert":{"format":1,"kind":"no","links":[],"locals":[{"names":[],"roles":[],"size":4294967295}]}}
< {"check":"invalid","fault":"not_counter","id":4}
> {"op":"check","peer":"a","left":"top","right":"~63*(some r ~top~63*)~","pin":[0],"cert":{"format":1,"kind":"no","links":[],"locals":[{"names":[],"roles":[],"size":4294967295}]}}
< {"check":"valid","id":5}
---
# A text of any depth is read, and a later text outside the grammar comes before it.
> {"op":"peers","names":["a"]}
< {"id":1,"peers":1}
> {"op":"check","peer":"a","left":"~100000*(not ~A~100000*)~","right":"B","pin":[0],"cert":{}}
< {"code":11,"error":"concept_limit","id":2,"n":0}
> {"op":"check","peer":"a","left":"~100000*(not ~A~100000*)~","right":"(","pin":[0],"cert":{}}
< {"code":3,"error":"bad_concept","id":3,"n":1}
> {"op":"ask","peer":"a","left":"~63*(not ~A~63*)~","right":"B"}
< {"cert":{"format":1,"kind":"no","links":[],"locals":[{"names":[],"roles":[],"size":1}]},"from":"search","id":4,"pin":[0],"verdict":"no"}
> {"op":"ask","peer":"a","left":"~64*(not ~A~64*)~","right":"B"}
< {"code":11,"error":"concept_limit","id":5,"n":0}
> {"op":"ask","peer":"a","left":"B","right":"~100000*(not ~A~100000*)~"}
< {"code":11,"error":"concept_limit","id":6,"n":1}
---
# The sides of an ask have at most 1,000 nodes.
> {"op":"peers","names":["a"]}
< {"id":1,"peers":1}
> {"op":"ask","peer":"a","left":"~30*(and ^31*(not ^A^31*)^ ~^9*(not ^A^9*)^~30*)~","right":"top"}
< {"cert":{"format":1,"kind":"yes","lines":[{"label":["bottom"],"peer":0,"why":{"rule":"bottom"}}]},"from":"search","id":2,"pin":[0],"verdict":"yes"}
> {"op":"ask","peer":"a","left":"bottom","right":"~30*(and ^31*(not ^A^31*)^ ~^9*(not ^A^9*)^~30*)~"}
< {"cert":{"format":1,"kind":"yes","lines":[{"label":["bottom"],"peer":0,"why":{"rule":"bottom"}}]},"from":"search","id":3,"pin":[0],"verdict":"yes"}
> {"op":"ask","peer":"a","left":"~30*(and ^31*(not ^A^31*)^ ~^10*(not ^A^10*)^~30*)~","right":"A"}
< {"code":11,"error":"concept_limit","id":4,"n":0}
> {"op":"ask","peer":"a","left":"A","right":"~30*(and ^31*(not ^A^31*)^ ~^10*(not ^A^10*)^~30*)~"}
< {"code":11,"error":"concept_limit","id":5,"n":1}
---
# An axiom outside the grammar comes before one that is too deep, and that before the number of axioms, which is at most 2,000.
> {"op":"peers","names":["a"]}
< {"id":1,"peers":1}
> {"op":"put","peer":"a","axioms":["(implies ~64*(not ~A~64*)~ B)"~1999*,"(implies A C)"~,"(implies B)"]}
< {"code":3,"error":"bad_concept","id":2,"n":2000}
> {"op":"put","peer":"a","axioms":["(implies ~64*(not ~A~64*)~ B)"~1999*,"(implies A C)"~,"(implies B C)"]}
< {"code":11,"error":"concept_limit","id":3,"n":0}
> {"op":"put","peer":"a","axioms":["(implies X B)"~1999*,"(implies A C)"~,"(implies B C)"]}
< {"code":9,"error":"too_many_axioms","id":4,"n":2001}
> {"op":"put","peer":"a","axioms":["(implies A B)"~1998*,"(implies A C)"~,"(implies B D)"]}
< {"id":5,"put":"a","version":1}
> {"op":"ask","peer":"a","left":"A","right":"D"}
< {"cert":{"format":1,"kind":"yes","lines":[{"label":["D","(not D)"],"peer":0,"why":{"name":"D","rule":"clash"}},{"label":["B","(not B)"],"peer":0,"why":{"name":"B","rule":"clash"}},{"label":["B","(not D)"],"peer":0,"why":{"axiom":1999,"left":1,"right":0,"rule":"axiom"}},{"label":["(not A)","A"],"peer":0,"why":{"name":"A","rule":"clash"}},{"label":["A","(not D)"],"peer":0,"why":{"axiom":0,"left":3,"right":2,"rule":"axiom"}}]},"from":"search","id":6,"pin":[1],"verdict":"yes"}
---
# A check with A, C and 65,535 further names has one too many, and no check leaves its names.
> {"op":"peers","names":["a"]}
< {"id":1,"peers":1}
> {"op":"check","peer":"a","left":"A","right":"C","pin":[0],"cert":{"format":1,"kind":"no","links":[],"locals":[{"roles":[],"size":1,"names":[["A",0]~65535*,["n#",0]~]}]}}
< {"code":12,"error":"symbols_full","id":2}
> {"op":"check","peer":"a","left":"A","right":"C","pin":[0],"cert":{"format":1,"kind":"no","links":[],"locals":[{"roles":[],"size":1,"names":[["A",0]~65534*,["m#",0]~]}]}}
< {"check":"valid","id":3}
> {"op":"ask","peer":"a","left":"X","right":"Y"}
< {"cert":{"format":1,"kind":"no","links":[],"locals":[{"names":[["X",0]],"roles":[],"size":1}]},"from":"search","id":4,"pin":[0],"verdict":"no"}
---
# A line has at most 1,048,576 bytes, and one of more is refused alone.
> ~1048576* ~
< {"code":1,"error":"bad_json","id":1}
> ~1048577* ~
< {"code":16,"error":"line_too_long","id":2}
> {"op":"peers","names":["a"]}
< {"id":3,"peers":1}
"#;

#[test]
fn what_is_above_a_limit_is_refused(rt: HostRuntime) -> Result<(), Failure> {
    follows(rt.alloc(), LIMITS)
}

/// Asks of a peer whose closure is as large as it may be, and larger.
const CLOSURES: &str = r#"
# The closure of a peer has at most 4,096 concepts: 2,000 axioms bring 4,002, and the sides 95 or 94 more.
> {"op":"peers","names":["a"]}
< {"id":1,"peers":1}
> {"op":"put","peer":"a","axioms":["(implies (and A X) Y)"~1999*,"(implies (and A# X) Y)"~]}
< {"id":2,"put":"a","version":1}
> {"op":"ask","peer":"a","left":"~45*(and L# ~L~45*)~","right":"(or V (some r W))"}
< {"code":15,"error":"closure_full","id":3,"n":4097}
# The budget is tested before it.
> {"op":"ask","peer":"a","left":"~45*(and L# ~L~45*)~","right":"(or V (some r W))","expansions":0}
< {"code":14,"error":"bad_budget","id":4}
> {"op":"ask","peer":"a","left":"~45*(and L# ~L~45*)~","right":"(or V W)"}
< {"cert":{"format":1,"kind":"no","links":[],"locals":[{"names":[~45*["L#",0],~["L",0]],"roles":[],"size":1}]},"from":"search","id":5,"pin":[1],"verdict":"no"}
"#;

#[test]
fn a_closure_above_its_limit_is_refused(rt: HostRuntime) -> Result<(), Failure> {
    follows(rt.alloc(), CLOSURES)
}
