use super::transcript::{Failure, follows};

/// Asks before and after puts.
const ASKS: &str = r#"
# An ask before the put knows no axiom.
> {"op":"peers","names":["a"]}
< {"id":1,"peers":1}
> {"op":"ask","peer":"a","left":"A","right":"A"}
< {"cert":{"format":1,"kind":"yes","lines":[{"label":["A","(not A)"],"peer":0,"why":{"name":"A","rule":"clash"}}]},"from":"search","id":2,"pin":[0],"verdict":"yes"}
> {"op":"ask","peer":"a","left":"A","right":"B"}
< {"cert":{"format":1,"kind":"no","links":[],"locals":[{"names":[["A",0]],"roles":[],"size":1}]},"from":"search","id":3,"pin":[0],"verdict":"no"}
---
# A name is under those that the axioms lead to.
> {"op":"peers","names":["a"]}
< {"id":1,"peers":1}
> {"op":"put","peer":"a","axioms":["(implies A B)","(implies B C)"]}
< {"id":2,"put":"a","version":1}
> {"op":"ask","peer":"a","left":"A","right":"C"}
< {"cert":{"format":1,"kind":"yes","lines":[{"label":["C","(not C)"],"peer":0,"why":{"name":"C","rule":"clash"}},{"label":["B","(not B)"],"peer":0,"why":{"name":"B","rule":"clash"}},{"label":["B","(not C)"],"peer":0,"why":{"axiom":1,"left":1,"right":0,"rule":"axiom"}},{"label":["(not A)","A"],"peer":0,"why":{"name":"A","rule":"clash"}},{"label":["A","(not C)"],"peer":0,"why":{"axiom":0,"left":3,"right":2,"rule":"axiom"}}]},"from":"search","id":3,"pin":[1],"verdict":"yes"}
> {"op":"ask","peer":"a","left":"A","right":"A"}
< {"cert":{"format":1,"kind":"yes","lines":[{"label":["(not A)","A"],"peer":0,"why":{"name":"A","rule":"clash"}}]},"from":"search","id":4,"pin":[1],"verdict":"yes"}
> {"op":"ask","peer":"a","left":"A","right":"D"}
< {"cert":{"format":1,"kind":"no","links":[],"locals":[{"names":[["B",0],["C",0],["A",0]],"roles":[],"size":1}]},"from":"search","id":5,"pin":[1],"verdict":"no"}
> {"op":"ask","peer":"a","left":"D","right":"D"}
< {"cert":{"format":1,"kind":"yes","lines":[{"label":["D","(not D)"],"peer":0,"why":{"name":"D","rule":"clash"}}]},"from":"search","id":6,"pin":[1],"verdict":"yes"}
> {"op":"ask","peer":"a","left":"C","right":"A"}
< {"cert":{"format":1,"kind":"no","links":[],"locals":[{"names":[["C",0]],"roles":[],"size":1}]},"from":"search","id":7,"pin":[1],"verdict":"no"}
---
> {"op":"peers","names":["a"]}
< {"id":1,"peers":1}
> {"op":"put","peer":"a","axioms":["(implies A B)","(implies B C)","(implies C A)"]}
< {"id":2,"put":"a","version":1}
> {"op":"ask","peer":"a","left":"C","right":"B"}
< {"cert":{"format":1,"kind":"yes","lines":[{"label":["B","(not B)"],"peer":0,"why":{"name":"B","rule":"clash"}},{"label":["(not A)","A"],"peer":0,"why":{"name":"A","rule":"clash"}},{"label":["(not B)","A"],"peer":0,"why":{"axiom":0,"left":1,"right":0,"rule":"axiom"}},{"label":["C","(not C)"],"peer":0,"why":{"name":"C","rule":"clash"}},{"label":["(not B)","C"],"peer":0,"why":{"axiom":2,"left":3,"right":2,"rule":"axiom"}}]},"from":"search","id":3,"pin":[1],"verdict":"yes"}
> {"op":"ask","peer":"a","left":"A","right":"D"}
< {"cert":{"format":1,"kind":"no","links":[],"locals":[{"names":[["B",0],["C",0],["A",0]],"roles":[],"size":1}]},"from":"search","id":4,"pin":[1],"verdict":"no"}
---
> {"op":"peers","names":["a"]}
< {"id":1,"peers":1}
> {"op":"put","peer":"a","axioms":[]}
< {"id":2,"put":"a","version":1}
> {"op":"ask","peer":"a","left":"A","right":"B"}
< {"cert":{"format":1,"kind":"no","links":[],"locals":[{"names":[["A",0]],"roles":[],"size":1}]},"from":"search","id":3,"pin":[1],"verdict":"no"}
---
# Any concepts are asked about. An interpretation may have no element, but top is not empty in each.
> {"op":"peers","names":["a"]}
< {"id":1,"peers":1}
> {"op":"ask","peer":"a","left":"top","right":"bottom"}
< {"cert":{"format":1,"kind":"no","links":[],"locals":[{"names":[],"roles":[],"size":1}]},"from":"search","id":2,"pin":[0],"verdict":"no"}
> {"op":"ask","peer":"a","left":"bottom","right":"top"}
< {"cert":{"format":1,"kind":"yes","lines":[{"label":["bottom"],"peer":0,"why":{"rule":"bottom"}}]},"from":"search","id":3,"pin":[0],"verdict":"yes"}
> {"op":"ask","peer":"a","left":"top","right":"top"}
< {"cert":{"format":1,"kind":"yes","lines":[{"label":["bottom"],"peer":0,"why":{"rule":"bottom"}}]},"from":"search","id":4,"pin":[0],"verdict":"yes"}
> {"op":"ask","peer":"a","left":"bottom","right":"bottom"}
< {"cert":{"format":1,"kind":"yes","lines":[{"label":["bottom"],"peer":0,"why":{"rule":"bottom"}}]},"from":"search","id":5,"pin":[0],"verdict":"yes"}
> {"op":"ask","peer":"a","left":"A","right":"top"}
< {"cert":{"format":1,"kind":"yes","lines":[{"label":["bottom"],"peer":0,"why":{"rule":"bottom"}}]},"from":"search","id":6,"pin":[0],"verdict":"yes"}
> {"op":"ask","peer":"a","left":"A","right":"bottom"}
< {"cert":{"format":1,"kind":"no","links":[],"locals":[{"names":[["A",0]],"roles":[],"size":1}]},"from":"search","id":7,"pin":[0],"verdict":"no"}
> {"op":"ask","peer":"a","left":"top","right":"A"}
< {"cert":{"format":1,"kind":"no","links":[],"locals":[{"names":[],"roles":[],"size":1}]},"from":"search","id":8,"pin":[0],"verdict":"no"}
> {"op":"ask","peer":"a","left":"bottom","right":"A"}
< {"cert":{"format":1,"kind":"yes","lines":[{"label":["bottom"],"peer":0,"why":{"rule":"bottom"}}]},"from":"search","id":9,"pin":[0],"verdict":"yes"}
> {"op":"ask","peer":"a","left":"(some r (and A B))","right":"(some r A)"}
< {"cert":{"format":1,"kind":"yes","lines":[{"label":["A","(not A)"],"peer":0,"why":{"name":"A","rule":"clash"}},{"label":["(and A B)","(not A)"],"peer":0,"why":{"at":0,"cite":0,"rule":"and"}},{"label":["(some r (and A B))","(all r (not A))"],"peer":0,"why":{"at":0,"cite":1,"rule":"successor"}}]},"from":"search","id":10,"pin":[0],"verdict":"yes"}
> {"op":"ask","peer":"a","left":"(and (some r A) (some r B))","right":"(some r (and A B))"}
< {"cert":{"format":1,"kind":"no","links":[],"locals":[{"names":[["A",1],["B",2]],"roles":[["r",0,1],["r",0,2]],"size":3}]},"from":"search","id":11,"pin":[0],"verdict":"no"}
> {"op":"ask","peer":"a","left":"(and (some r A) (all r B))","right":"(some r (and A B))"}
< {"cert":{"format":1,"kind":"yes","lines":[{"label":["A","(not A)"],"peer":0,"why":{"name":"A","rule":"clash"}},{"label":["B","(not B)"],"peer":0,"why":{"name":"B","rule":"clash"}},{"label":["A","B","(or (not A) (not B))"],"peer":0,"why":{"at":2,"left":0,"right":1,"rule":"or"}},{"label":["(some r A)","(all r B)","(all r (or (not A) (not B)))"],"peer":0,"why":{"at":0,"cite":2,"rule":"successor"}},{"label":["(and (some r A) (all r B))","(all r (or (not A) (not B)))"],"peer":0,"why":{"at":0,"cite":3,"rule":"and"}}]},"from":"search","id":12,"pin":[0],"verdict":"yes"}
---
# Each element is one of two cases, and both lead to C.
> {"op":"peers","names":["a"]}
< {"id":1,"peers":1}
> {"op":"put","peer":"a","axioms":["(implies top (or A B))","(implies A C)","(implies B C)"]}
< {"id":2,"put":"a","version":1}
> {"op":"ask","peer":"a","left":"top","right":"C"}
< {"cert":{"format":1,"kind":"yes","lines":[{"label":["C","(not C)"],"peer":0,"why":{"name":"C","rule":"clash"}},{"label":["A","(not A)"],"peer":0,"why":{"name":"A","rule":"clash"}},{"label":["A","(not C)"],"peer":0,"why":{"axiom":1,"left":1,"right":0,"rule":"axiom"}},{"label":["B","(not B)"],"peer":0,"why":{"name":"B","rule":"clash"}},{"label":["B","(not C)"],"peer":0,"why":{"axiom":2,"left":3,"right":0,"rule":"axiom"}},{"label":["(or A B)","(not C)"],"peer":0,"why":{"at":0,"left":2,"right":4,"rule":"or"}},{"label":["bottom"],"peer":0,"why":{"rule":"bottom"}},{"label":["(not C)"],"peer":0,"why":{"axiom":0,"left":6,"right":5,"rule":"axiom"}}]},"from":"search","id":3,"pin":[1],"verdict":"yes"}
> {"op":"ask","peer":"a","left":"top","right":"A"}
< {"cert":{"format":1,"kind":"no","links":[],"locals":[{"names":[["B",0],["C",0]],"roles":[],"size":1}]},"from":"search","id":4,"pin":[1],"verdict":"no"}
> {"op":"ask","peer":"a","left":"(not A)","right":"B"}
< {"cert":{"format":1,"kind":"yes","lines":[{"label":["A","(not A)"],"peer":0,"why":{"name":"A","rule":"clash"}},{"label":["B","(not B)"],"peer":0,"why":{"name":"B","rule":"clash"}},{"label":["(or A B)","(not A)","(not B)"],"peer":0,"why":{"at":0,"left":0,"right":1,"rule":"or"}},{"label":["bottom"],"peer":0,"why":{"rule":"bottom"}},{"label":["(not A)","(not B)"],"peer":0,"why":{"axiom":0,"left":3,"right":2,"rule":"axiom"}}]},"from":"search","id":5,"pin":[1],"verdict":"yes"}
---
# A role leads in a loop.
> {"op":"peers","names":["a"]}
< {"id":1,"peers":1}
> {"op":"put","peer":"a","axioms":["(implies A (some r A))"]}
< {"id":2,"put":"a","version":1}
> {"op":"ask","peer":"a","left":"A","right":"bottom"}
< {"cert":{"format":1,"kind":"no","links":[],"locals":[{"names":[["A",0],["A",1]],"roles":[["r",0,1],["r",1,1]],"size":2}]},"from":"search","id":3,"pin":[1],"verdict":"no"}
> {"op":"ask","peer":"a","left":"A","right":"(some r (some r A))"}
< {"cert":{"format":1,"kind":"yes","lines":[{"label":["(not A)","A"],"peer":0,"why":{"name":"A","rule":"clash"}},{"label":["(some r A)","(all r (not A))"],"peer":0,"why":{"at":0,"cite":0,"rule":"successor"}},{"label":["A","(all r (not A))"],"peer":0,"why":{"axiom":0,"left":0,"right":1,"rule":"axiom"}},{"label":["(some r A)","(all r (all r (not A)))"],"peer":0,"why":{"at":0,"cite":2,"rule":"successor"}},{"label":["A","(all r (all r (not A)))"],"peer":0,"why":{"axiom":0,"left":0,"right":3,"rule":"axiom"}}]},"from":"search","id":4,"pin":[1],"verdict":"yes"}
> {"op":"ask","peer":"a","left":"A","right":"(all r A)"}
< {"cert":{"format":1,"kind":"no","links":[],"locals":[{"names":[["A",0],["A",1]],"roles":[["r",0,1],["r",0,2],["r",1,1]],"size":3}]},"from":"search","id":5,"pin":[1],"verdict":"no"}
> {"op":"ask","peer":"a","left":"(all r bottom)","right":"(not A)"}
< {"cert":{"format":1,"kind":"yes","lines":[{"label":["bottom"],"peer":0,"why":{"rule":"bottom"}},{"label":["(some r A)","(all r bottom)"],"peer":0,"why":{"at":0,"cite":0,"rule":"successor"}},{"label":["(not A)","A"],"peer":0,"why":{"name":"A","rule":"clash"}},{"label":["A","(all r bottom)"],"peer":0,"why":{"axiom":0,"left":2,"right":1,"rule":"axiom"}}]},"from":"search","id":6,"pin":[1],"verdict":"yes"}
---
# Axioms that leave no element make every ask a yes.
> {"op":"peers","names":["a"]}
< {"id":1,"peers":1}
> {"op":"put","peer":"a","axioms":["(implies top bottom)"]}
< {"id":2,"put":"a","version":1}
> {"op":"ask","peer":"a","left":"top","right":"bottom"}
< {"cert":{"format":1,"kind":"yes","lines":[{"label":["bottom"],"peer":0,"why":{"rule":"bottom"}},{"label":[],"peer":0,"why":{"axiom":0,"left":0,"right":0,"rule":"axiom"}}]},"from":"search","id":3,"pin":[1],"verdict":"yes"}
> {"op":"ask","peer":"a","left":"A","right":"B"}
< {"cert":{"format":1,"kind":"yes","lines":[{"label":["bottom"],"peer":0,"why":{"rule":"bottom"}},{"label":[],"peer":0,"why":{"axiom":0,"left":0,"right":0,"rule":"axiom"}}]},"from":"search","id":4,"pin":[1],"verdict":"yes"}
---
# An axiom that leaves none of A makes every ask about A a yes.
> {"op":"peers","names":["a"]}
< {"id":1,"peers":1}
> {"op":"put","peer":"a","axioms":["(implies A B)","(implies A (not C))","(implies (and A B) (some r C))","(implies (some r C) bottom)"]}
< {"id":2,"put":"a","version":1}
> {"op":"ask","peer":"a","left":"A","right":"D"}
< {"cert":{"format":1,"kind":"yes","lines":[{"label":["bottom"],"peer":0,"why":{"rule":"bottom"}},{"label":["(not C)","C"],"peer":0,"why":{"name":"C","rule":"clash"}},{"label":["(some r C)","(all r (not C))"],"peer":0,"why":{"at":0,"cite":1,"rule":"successor"}},{"label":["(some r C)"],"peer":0,"why":{"axiom":3,"left":2,"right":0,"rule":"axiom"}},{"label":["(not A)","A"],"peer":0,"why":{"name":"A","rule":"clash"}},{"label":["B","(not B)"],"peer":0,"why":{"name":"B","rule":"clash"}},{"label":["B","(or (not A) (not B))","A"],"peer":0,"why":{"at":1,"left":4,"right":5,"rule":"or"}},{"label":["B","A"],"peer":0,"why":{"axiom":2,"left":6,"right":3,"rule":"axiom"}},{"label":["A"],"peer":0,"why":{"axiom":0,"left":4,"right":7,"rule":"axiom"}}]},"from":"search","id":3,"pin":[1],"verdict":"yes"}
> {"op":"ask","peer":"a","left":"B","right":"D"}
< {"cert":{"format":1,"kind":"no","links":[],"locals":[{"names":[["B",0]],"roles":[],"size":1}]},"from":"search","id":4,"pin":[1],"verdict":"no"}
> {"op":"ask","peer":"a","left":"top","right":"(all r (not C))"}
< {"cert":{"format":1,"kind":"yes","lines":[{"label":["bottom"],"peer":0,"why":{"rule":"bottom"}},{"label":["(not C)","C"],"peer":0,"why":{"name":"C","rule":"clash"}},{"label":["(some r C)","(all r (not C))"],"peer":0,"why":{"at":0,"cite":1,"rule":"successor"}},{"label":["(some r C)"],"peer":0,"why":{"axiom":3,"left":2,"right":0,"rule":"axiom"}}]},"from":"search","id":5,"pin":[1],"verdict":"yes"}
---
# An ask may be spent, and the next one is answered.
> {"op":"peers","names":["a"]}
< {"id":1,"peers":1}
> {"op":"put","peer":"a","axioms":["(implies A (some r B))"]}
< {"id":2,"put":"a","version":1}
> {"op":"ask","peer":"a","left":"A","right":"C","expansions":1}
< {"count":1,"from":"search","id":3,"peer":0,"pin":[1],"spent":"run","verdict":"spent"}
> {"op":"ask","peer":"a","left":"A","right":"C","expansions":200000}
< {"cert":{"format":1,"kind":"no","links":[],"locals":[{"names":[["A",0],["B",1]],"roles":[["r",0,1]],"size":2}]},"from":"search","id":4,"pin":[1],"verdict":"no"}
> {"op":"ask","peer":"a","left":"A","right":"C"}
< {"cert":{"format":1,"kind":"no","links":[],"locals":[{"names":[["A",0],["B",1]],"roles":[["r",0,1]],"size":2}]},"from":"search","id":5,"pin":[1],"verdict":"no"}
> {"op":"ask","peer":"a","left":"A","right":"(some r B)"}
< {"cert":{"format":1,"kind":"yes","lines":[{"label":["B","(not B)"],"peer":0,"why":{"name":"B","rule":"clash"}},{"label":["(some r B)","(all r (not B))"],"peer":0,"why":{"at":0,"cite":0,"rule":"successor"}},{"label":["(not A)","A"],"peer":0,"why":{"name":"A","rule":"clash"}},{"label":["A","(all r (not B))"],"peer":0,"why":{"axiom":0,"left":2,"right":1,"rule":"axiom"}}]},"from":"search","id":6,"pin":[1],"verdict":"yes"}
---
# Peers are declared before all else, once.
> {"op":"put","peer":"a"}
< {"code":4,"error":"no_peers","id":1}
> {"op":"ask","peer":"a","left":"A","right":"A"}
< {"code":4,"error":"no_peers","id":2}
> {"op":"versions"}
< {"code":4,"error":"no_peers","id":3}
> {"op":"peers","names":[]}
< {"code":6,"error":"bad_peers","id":4}
> {"op":"peers","names":["a","b","a"]}
< {"code":6,"error":"bad_peers","id":5}
> {"op":"peers","names":["a b"]}
< {"code":6,"error":"bad_peers","id":6}
> {"op":"peers","names":["a","b"]}
< {"id":7,"peers":2}
> {"op":"peers","names":["a"]}
< {"code":5,"error":"peers_twice","id":8}
---
# What follows at one peer passes on to another by its rules, of which each version may have others.
> {"op":"peers","names":["a","b"]}
< {"id":1,"peers":2}
> {"op":"put","peer":"a","axioms":["(implies A (or B C))"]}
< {"id":2,"put":"a","version":1}
> {"op":"put","peer":"b","into":[{"from":"a","source":"B","target":"E"},{"from":"a","source":"C","target":"F"}],"onto":[{"from":"a","source":"A","target":"D"}]}
< {"id":3,"put":"b","version":1}
> {"op":"ask","peer":"b","left":"D","right":"(or E F)"}
< {"cert":{"format":1,"kind":"yes","lines":[{"label":["B","(not B)"],"peer":0,"why":{"name":"B","rule":"clash"}},{"label":["C","(not C)"],"peer":0,"why":{"name":"C","rule":"clash"}},{"label":["(or B C)","(not B)","(not C)"],"peer":0,"why":{"at":0,"left":0,"right":1,"rule":"or"}},{"label":["(not A)","A"],"peer":0,"why":{"name":"A","rule":"clash"}},{"label":["(not B)","(not C)","A"],"peer":0,"why":{"axiom":0,"left":3,"right":2,"rule":"axiom"}},{"label":["E","(not E)"],"peer":1,"why":{"name":"E","rule":"clash"}},{"label":["F","(not F)"],"peer":1,"why":{"name":"F","rule":"clash"}},{"label":["(not E)","(not F)","D"],"peer":1,"why":{"cite":4,"each":[5,6],"from":0,"into":[0,1],"onto":0,"rule":"bridge"}},{"label":["D","(and (not E) (not F))"],"peer":1,"why":{"at":1,"cite":7,"rule":"and"}}]},"from":"search","id":4,"pin":[1,1],"verdict":"yes"}
> {"op":"ask","peer":"b","left":"D","right":"E"}
< {"cert":{"format":1,"kind":"no","links":[[0,1,0,0]],"locals":[{"names":[["C",0],["A",0]],"roles":[],"size":1},{"names":[["F",0],["D",0]],"roles":[],"size":1}]},"from":"search","id":5,"pin":[1,1],"verdict":"no"}
> {"op":"put","peer":"a","axioms":["(implies A B)"]}
< {"id":6,"put":"a","version":2}
> {"op":"versions"}
< {"id":7,"versions":[2,1]}
> {"op":"ask","peer":"b","left":"D","right":"E"}
< {"cert":{"format":1,"kind":"yes","lines":[{"label":["B","(not B)"],"peer":0,"why":{"name":"B","rule":"clash"}},{"label":["(not A)","A"],"peer":0,"why":{"name":"A","rule":"clash"}},{"label":["(not B)","A"],"peer":0,"why":{"axiom":0,"left":1,"right":0,"rule":"axiom"}},{"label":["E","(not E)"],"peer":1,"why":{"name":"E","rule":"clash"}},{"label":["(not E)","D"],"peer":1,"why":{"cite":2,"each":[3],"from":0,"into":[0],"onto":0,"rule":"bridge"}}]},"from":"search","id":8,"pin":[2,1],"verdict":"yes"}
> {"op":"put","peer":"b"}
< {"id":9,"put":"b","version":2}
> {"op":"ask","peer":"b","left":"D","right":"E"}
< {"cert":{"format":1,"kind":"no","links":[],"locals":[{"names":[],"roles":[],"size":0},{"names":[["D",0]],"roles":[],"size":1}]},"from":"search","id":10,"pin":[2,2],"verdict":"no"}
---
# A blank line ends a window, and what was found in it is kept: it is given again while the versions of the peers that matter stay.
> {"op":"peers","names":["a","b"]}
< {"id":1,"peers":2}
> {"op":"ask","peer":"a","left":"A","right":"A"}
< {"cert":{"format":1,"kind":"yes","lines":[{"label":["A","(not A)"],"peer":0,"why":{"name":"A","rule":"clash"}}]},"from":"search","id":2,"pin":[0,0],"verdict":"yes"}
> {"op":"ask","peer":"a","left":"A","right":"A"}
< {"cert":{"format":1,"kind":"yes","lines":[{"label":["A","(not A)"],"peer":0,"why":{"name":"A","rule":"clash"}}]},"from":"search","id":3,"pin":[0,0],"verdict":"yes"}
> ~0* ~
> {"op":"ask","peer":"a","left":"A","right":"A","expansions":1}
< {"cert":{"format":1,"kind":"yes","lines":[{"label":["A","(not A)"],"peer":0,"why":{"name":"A","rule":"clash"}}]},"from":"cache","id":4,"pin":[0,0],"verdict":"yes"}
> {"op":"ask","peer":"b","left":"A","right":"A"}
< {"cert":{"format":1,"kind":"yes","lines":[{"label":["A","(not A)"],"peer":1,"why":{"name":"A","rule":"clash"}}]},"from":"search","id":5,"pin":[0,0],"verdict":"yes"}
> {"op":"put","peer":"b","axioms":["(implies A B)"]}
< {"id":6,"put":"b","version":1}
> {"op":"ask","peer":"a","left":"A","right":"A"}
< {"cert":{"format":1,"kind":"yes","lines":[{"label":["A","(not A)"],"peer":0,"why":{"name":"A","rule":"clash"}}]},"from":"cache","id":7,"pin":[0,1],"verdict":"yes"}
> {"op":"put","peer":"a"}
< {"id":8,"put":"a","version":1}
> {"op":"ask","peer":"a","left":"A","right":"A"}
< {"cert":{"format":1,"kind":"yes","lines":[{"label":["A","(not A)"],"peer":0,"why":{"name":"A","rule":"clash"}}]},"from":"search","id":9,"pin":[1,1],"verdict":"yes"}
"#;

#[test]
fn asks_are_answered_by_the_axioms(rt: HostRuntime) -> Result<(), Failure> {
    follows(rt.alloc(), ASKS)
}
