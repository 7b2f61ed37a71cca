use super::transcript::{Failure, follows};

/// Questions to one peer and to several, each from the meaning of versions and rules; and each certificate put back through a check.
const ROWS: &str = r#"
# An empty domain does not make it a yes.
> {"op":"peers","names":["a"]}
< {"id":1,"peers":1}
> {"op":"ask","peer":"a","left":"top","right":"bottom"}
< {"cert":{"format":1,"kind":"no","links":[],"locals":[{"names":[],"roles":[],"size":1}]},"from":"search","id":2,"pin":[0],"verdict":"no"}
# Each certificate is valid.
> {"op":"check","peer":"a","left":"top","right":"bottom","pin":[0],"cert":{"format":1,"kind":"no","links":[],"locals":[{"names":[],"roles":[],"size":1}]}}
< {"check":"valid","id":3}
---
# A cycle of successors has a finite model.
> {"op":"peers","names":["a"]}
< {"id":1,"peers":1}
> {"op":"put","peer":"a","axioms":["(implies A (some r A))"]}
< {"id":2,"put":"a","version":1}
> {"op":"ask","peer":"a","left":"A","right":"bottom"}
< {"cert":{"format":1,"kind":"no","links":[],"locals":[{"names":[["A",0],["A",1]],"roles":[["r",0,1],["r",1,1]],"size":2}]},"from":"search","id":3,"pin":[1],"verdict":"no"}
# Each certificate is valid.
> {"op":"check","peer":"a","left":"A","right":"bottom","pin":[1],"cert":{"format":1,"kind":"no","links":[],"locals":[{"names":[["A",0],["A",1]],"roles":[["r",0,1],["r",1,1]],"size":2}]}}
< {"check":"valid","id":4}
---
# What holds at a is carried over a bridge to b.
> {"op":"peers","names":["a","b"]}
< {"id":1,"peers":2}
> {"op":"put","peer":"a","axioms":["(implies A B)"]}
< {"id":2,"put":"a","version":1}
> {"op":"put","peer":"b","into":[{"from":"a","source":"B","target":"H"}],"onto":[{"from":"a","source":"A","target":"G"}]}
< {"id":3,"put":"b","version":1}
> {"op":"ask","peer":"b","left":"G","right":"H"}
< {"cert":{"format":1,"kind":"yes","lines":[{"label":["B","(not B)"],"peer":0,"why":{"name":"B","rule":"clash"}},{"label":["(not A)","A"],"peer":0,"why":{"name":"A","rule":"clash"}},{"label":["(not B)","A"],"peer":0,"why":{"axiom":0,"left":1,"right":0,"rule":"axiom"}},{"label":["H","(not H)"],"peer":1,"why":{"name":"H","rule":"clash"}},{"label":["(not H)","G"],"peer":1,"why":{"cite":2,"each":[3],"from":0,"into":[0],"onto":0,"rule":"bridge"}}]},"from":"search","id":4,"pin":[1,1],"verdict":"yes"}
# A derivation by hand, the same with a line that cites what is not before it, and none.
> {"op":"check","peer":"b","left":"G","right":"H","pin":[1,1],"cert":{"format":1,"kind":"yes","lines":[{"label":["A","(not A)"],"peer":0,"why":{"name":"A","rule":"clash"}},{"label":["B","(not B)"],"peer":0,"why":{"name":"B","rule":"clash"}},{"label":["A","(not B)"],"peer":0,"why":{"axiom":0,"left":0,"right":1,"rule":"axiom"}},{"label":["H","(not H)"],"peer":1,"why":{"name":"H","rule":"clash"}},{"label":["G","(not H)"],"peer":1,"why":{"cite":2,"each":[3],"from":0,"into":[0],"onto":0,"rule":"bridge"}}]}}
< {"check":"valid","id":5}
> {"op":"check","peer":"b","left":"G","right":"H","pin":[1,1],"cert":{"format":1,"kind":"yes","lines":[{"label":["A","(not A)"],"peer":0,"why":{"name":"A","rule":"clash"}},{"label":["B","(not B)"],"peer":0,"why":{"name":"B","rule":"clash"}},{"label":["A","(not B)"],"peer":0,"why":{"axiom":0,"left":0,"right":3,"rule":"axiom"}},{"label":["H","(not H)"],"peer":1,"why":{"name":"H","rule":"clash"}},{"label":["G","(not H)"],"peer":1,"why":{"cite":2,"each":[3],"from":0,"into":[0],"onto":0,"rule":"bridge"}}]}}
< {"at":2,"check":"invalid","id":6}
> {"op":"check","peer":"b","left":"G","right":"H","pin":[1,1],"cert":{"format":1,"kind":"yes","lines":[]}}
< {"at":0,"check":"invalid","id":7}
# Each certificate is valid.
> {"op":"check","peer":"b","left":"G","right":"H","pin":[1,1],"cert":{"format":1,"kind":"yes","lines":[{"label":["B","(not B)"],"peer":0,"why":{"name":"B","rule":"clash"}},{"label":["(not A)","A"],"peer":0,"why":{"name":"A","rule":"clash"}},{"label":["(not B)","A"],"peer":0,"why":{"axiom":0,"left":1,"right":0,"rule":"axiom"}},{"label":["H","(not H)"],"peer":1,"why":{"name":"H","rule":"clash"}},{"label":["(not H)","G"],"peer":1,"why":{"cite":2,"each":[3],"from":0,"into":[0],"onto":0,"rule":"bridge"}}]}}
< {"check":"valid","id":8}
---
# Without the onto rule there may be an element of G that no element of a leads to.
> {"op":"peers","names":["a","b"]}
< {"id":1,"peers":2}
> {"op":"put","peer":"a","axioms":["(implies A B)"]}
< {"id":2,"put":"a","version":1}
> {"op":"put","peer":"b","into":[{"from":"a","source":"B","target":"H"}]}
< {"id":3,"put":"b","version":1}
> {"op":"ask","peer":"b","left":"G","right":"H"}
< {"cert":{"format":1,"kind":"no","links":[],"locals":[{"names":[],"roles":[],"size":0},{"names":[["G",0]],"roles":[],"size":1}]},"from":"search","id":4,"pin":[1,1],"verdict":"no"}
# Each certificate is valid.
> {"op":"check","peer":"b","left":"G","right":"H","pin":[1,1],"cert":{"format":1,"kind":"no","links":[],"locals":[{"names":[],"roles":[],"size":0},{"names":[["G",0]],"roles":[],"size":1}]}}
< {"check":"valid","id":5}
---
# Two cases at a, one rule for each.
> {"op":"peers","names":["a","b"]}
< {"id":1,"peers":2}
> {"op":"put","peer":"a","axioms":["(implies A (or B1 B2))"]}
< {"id":2,"put":"a","version":1}
> {"op":"put","peer":"b","into":[{"from":"a","source":"B1","target":"H1"},{"from":"a","source":"B2","target":"H2"}],"onto":[{"from":"a","source":"A","target":"G"}]}
< {"id":3,"put":"b","version":1}
> {"op":"ask","peer":"b","left":"G","right":"(or H1 H2)"}
< {"cert":{"format":1,"kind":"yes","lines":[{"label":["B1","(not B1)"],"peer":0,"why":{"name":"B1","rule":"clash"}},{"label":["B2","(not B2)"],"peer":0,"why":{"name":"B2","rule":"clash"}},{"label":["(or B1 B2)","(not B1)","(not B2)"],"peer":0,"why":{"at":0,"left":0,"right":1,"rule":"or"}},{"label":["(not A)","A"],"peer":0,"why":{"name":"A","rule":"clash"}},{"label":["(not B1)","(not B2)","A"],"peer":0,"why":{"axiom":0,"left":3,"right":2,"rule":"axiom"}},{"label":["H1","(not H1)"],"peer":1,"why":{"name":"H1","rule":"clash"}},{"label":["H2","(not H2)"],"peer":1,"why":{"name":"H2","rule":"clash"}},{"label":["(not H1)","(not H2)","G"],"peer":1,"why":{"cite":4,"each":[5,6],"from":0,"into":[0,1],"onto":0,"rule":"bridge"}},{"label":["G","(and (not H1) (not H2))"],"peer":1,"why":{"at":1,"cite":7,"rule":"and"}}]},"from":"search","id":4,"pin":[1,1],"verdict":"yes"}
> {"op":"ask","peer":"b","left":"G","right":"H1"}
< {"cert":{"format":1,"kind":"no","links":[[0,1,0,0]],"locals":[{"names":[["B2",0],["A",0]],"roles":[],"size":1},{"names":[["H2",0],["G",0]],"roles":[],"size":1}]},"from":"search","id":5,"pin":[1,1],"verdict":"no"}
# Each certificate is valid.
> {"op":"check","peer":"b","left":"G","right":"(or H1 H2)","pin":[1,1],"cert":{"format":1,"kind":"yes","lines":[{"label":["B1","(not B1)"],"peer":0,"why":{"name":"B1","rule":"clash"}},{"label":["B2","(not B2)"],"peer":0,"why":{"name":"B2","rule":"clash"}},{"label":["(or B1 B2)","(not B1)","(not B2)"],"peer":0,"why":{"at":0,"left":0,"right":1,"rule":"or"}},{"label":["(not A)","A"],"peer":0,"why":{"name":"A","rule":"clash"}},{"label":["(not B1)","(not B2)","A"],"peer":0,"why":{"axiom":0,"left":3,"right":2,"rule":"axiom"}},{"label":["H1","(not H1)"],"peer":1,"why":{"name":"H1","rule":"clash"}},{"label":["H2","(not H2)"],"peer":1,"why":{"name":"H2","rule":"clash"}},{"label":["(not H1)","(not H2)","G"],"peer":1,"why":{"cite":4,"each":[5,6],"from":0,"into":[0,1],"onto":0,"rule":"bridge"}},{"label":["G","(and (not H1) (not H2))"],"peer":1,"why":{"at":1,"cite":7,"rule":"and"}}]}}
< {"check":"valid","id":6}
> {"op":"check","peer":"b","left":"G","right":"H1","pin":[1,1],"cert":{"format":1,"kind":"no","links":[[0,1,0,0]],"locals":[{"names":[["B2",0],["A",0]],"roles":[],"size":1},{"names":[["H2",0],["G",0]],"roles":[],"size":1}]}}
< {"check":"valid","id":7}
---
# A peer without elements does not spread.
> {"op":"peers","names":["a","b"]}
< {"id":1,"peers":2}
> {"op":"put","peer":"a","axioms":["(implies top bottom)"]}
< {"id":2,"put":"a","version":1}
> {"op":"put","peer":"b","into":[{"from":"a","source":"A","target":"G"}]}
< {"id":3,"put":"b","version":1}
> {"op":"ask","peer":"b","left":"G","right":"bottom"}
< {"cert":{"format":1,"kind":"no","links":[],"locals":[{"names":[],"roles":[],"size":0},{"names":[["G",0]],"roles":[],"size":1}]},"from":"search","id":4,"pin":[1,1],"verdict":"no"}
# Each certificate is valid.
> {"op":"check","peer":"b","left":"G","right":"bottom","pin":[1,1],"cert":{"format":1,"kind":"no","links":[],"locals":[{"names":[],"roles":[],"size":0},{"names":[["G",0]],"roles":[],"size":1}]}}
< {"check":"valid","id":5}
---
# But no element has a link from it.
> {"op":"peers","names":["a","b"]}
< {"id":1,"peers":2}
> {"op":"put","peer":"a","axioms":["(implies top bottom)"]}
< {"id":2,"put":"a","version":1}
> {"op":"put","peer":"b","into":[{"from":"a","source":"A","target":"G"}],"onto":[{"from":"a","source":"A","target":"G"}]}
< {"id":3,"put":"b","version":1}
> {"op":"ask","peer":"b","left":"G","right":"bottom"}
< {"cert":{"format":1,"kind":"yes","lines":[{"label":["bottom"],"peer":0,"why":{"rule":"bottom"}},{"label":[],"peer":0,"why":{"axiom":0,"left":0,"right":0,"rule":"axiom"}},{"label":["G"],"peer":1,"why":{"cite":1,"each":[],"from":0,"into":[],"onto":0,"rule":"bridge"}}]},"from":"search","id":4,"pin":[1,1],"verdict":"yes"}
# Each certificate is valid.
> {"op":"check","peer":"b","left":"G","right":"bottom","pin":[1,1],"cert":{"format":1,"kind":"yes","lines":[{"label":["bottom"],"peer":0,"why":{"rule":"bottom"}},{"label":[],"peer":0,"why":{"axiom":0,"left":0,"right":0,"rule":"axiom"}},{"label":["G"],"peer":1,"why":{"cite":1,"each":[],"from":0,"into":[],"onto":0,"rule":"bridge"}}]}}
< {"check":"valid","id":5}
---
# A circle of rules proves nothing. A world by hand, and without a link that it wants.
> {"op":"peers","names":["a","b"]}
< {"id":1,"peers":2}
> {"op":"put","peer":"a","into":[{"from":"b","source":"H","target":"B"}],"onto":[{"from":"b","source":"G","target":"A"}]}
< {"id":2,"put":"a","version":1}
> {"op":"put","peer":"b","into":[{"from":"a","source":"B","target":"H"}],"onto":[{"from":"a","source":"A","target":"G"}]}
< {"id":3,"put":"b","version":1}
> {"op":"ask","peer":"a","left":"A","right":"B"}
< {"cert":{"format":1,"kind":"no","links":[[1,0,0,0],[0,1,1,0],[1,0,0,1]],"locals":[{"names":[["A",0],["A",1]],"roles":[],"size":2},{"names":[["G",0]],"roles":[],"size":1}]},"from":"search","id":4,"pin":[1,1],"verdict":"no"}
> {"op":"check","peer":"a","left":"A","right":"B","pin":[1,1],"cert":{"format":1,"kind":"no","links":[[0,1,0,0],[1,0,0,0]],"locals":[{"names":[["A",0]],"roles":[],"size":1},{"names":[["G",0]],"roles":[],"size":1}]}}
< {"check":"valid","id":5}
> {"op":"check","peer":"a","left":"A","right":"B","pin":[1,1],"cert":{"format":1,"kind":"no","links":[[0,1,0,0]],"locals":[{"names":[["A",0]],"roles":[],"size":1},{"names":[["G",0]],"roles":[],"size":1}]}}
< {"check":"invalid","fault":"onto","id":6,"index":0,"peer":0}
# Each certificate is valid.
> {"op":"check","peer":"a","left":"A","right":"B","pin":[1,1],"cert":{"format":1,"kind":"no","links":[[1,0,0,0],[0,1,1,0],[1,0,0,1]],"locals":[{"names":[["A",0],["A",1]],"roles":[],"size":2},{"names":[["G",0]],"roles":[],"size":1}]}}
< {"check":"valid","id":7}
---
# One verdict is not enough for it.
> {"op":"peers","names":["a","b"]}
< {"id":1,"peers":2}
> {"op":"put","peer":"a","into":[{"from":"b","source":"H","target":"B"}],"onto":[{"from":"b","source":"G","target":"A"}]}
< {"id":2,"put":"a","version":1}
> {"op":"put","peer":"b","into":[{"from":"a","source":"B","target":"H"}],"onto":[{"from":"a","source":"A","target":"G"}]}
< {"id":3,"put":"b","version":1}
> {"op":"ask","peer":"a","left":"A","right":"B","verdicts":1}
< {"count":1,"from":"search","id":4,"pin":[1,1],"spent":"verdicts","verdict":"spent"}
---
# An axiom at b closes the circle, and what was open before it is asked again.
> {"op":"peers","names":["a","b"]}
< {"id":1,"peers":2}
> {"op":"put","peer":"a","into":[{"from":"b","source":"H","target":"B"}],"onto":[{"from":"b","source":"G","target":"A"}]}
< {"id":2,"put":"a","version":1}
> {"op":"put","peer":"b","axioms":["(implies G H)"],"into":[{"from":"a","source":"B","target":"H"}],"onto":[{"from":"a","source":"A","target":"G"}]}
< {"id":3,"put":"b","version":1}
> {"op":"ask","peer":"a","left":"A","right":"B"}
< {"cert":{"format":1,"kind":"yes","lines":[{"label":["H","(not H)"],"peer":1,"why":{"name":"H","rule":"clash"}},{"label":["(not G)","G"],"peer":1,"why":{"name":"G","rule":"clash"}},{"label":["(not H)","G"],"peer":1,"why":{"axiom":0,"left":1,"right":0,"rule":"axiom"}},{"label":["B","(not B)"],"peer":0,"why":{"name":"B","rule":"clash"}},{"label":["(not B)","A"],"peer":0,"why":{"cite":2,"each":[3],"from":1,"into":[0],"onto":0,"rule":"bridge"}}]},"from":"search","id":4,"pin":[1,1],"verdict":"yes"}
# Each certificate is valid.
> {"op":"check","peer":"a","left":"A","right":"B","pin":[1,1],"cert":{"format":1,"kind":"yes","lines":[{"label":["H","(not H)"],"peer":1,"why":{"name":"H","rule":"clash"}},{"label":["(not G)","G"],"peer":1,"why":{"name":"G","rule":"clash"}},{"label":["(not H)","G"],"peer":1,"why":{"axiom":0,"left":1,"right":0,"rule":"axiom"}},{"label":["B","(not B)"],"peer":0,"why":{"name":"B","rule":"clash"}},{"label":["(not B)","A"],"peer":0,"why":{"cite":2,"each":[3],"from":1,"into":[0],"onto":0,"rule":"bridge"}}]}}
< {"check":"valid","id":5}
"#;

#[test]
fn questions_are_answered_across_bridges(rt: HostRuntime) -> Result<(), Failure> {
    follows(rt.alloc(), ROWS)
}

/// Versions that are replaced, and answers that are kept for those that matter.
const VERSIONS: &str = r#"
# An ask is under the versions of its line, also within a window.
> {"op":"peers","names":["a"]}
< {"id":1,"peers":1}
> {"op":"put","peer":"a","axioms":["(implies A B)"]}
< {"id":2,"put":"a","version":1}
> {"op":"ask","peer":"a","left":"A","right":"B"}
< {"cert":{"format":1,"kind":"yes","lines":[{"label":["B","(not B)"],"peer":0,"why":{"name":"B","rule":"clash"}},{"label":["(not A)","A"],"peer":0,"why":{"name":"A","rule":"clash"}},{"label":["A","(not B)"],"peer":0,"why":{"axiom":0,"left":1,"right":0,"rule":"axiom"}}]},"from":"search","id":3,"pin":[1],"verdict":"yes"}
> {"op":"put","peer":"a","axioms":[]}
< {"id":4,"put":"a","version":2}
> {"op":"ask","peer":"a","left":"A","right":"B"}
< {"cert":{"format":1,"kind":"no","links":[],"locals":[{"names":[["A",0]],"roles":[],"size":1}]},"from":"search","id":5,"pin":[2],"verdict":"no"}
> {"op":"versions"}
< {"id":6,"versions":[2]}
# Each certificate is valid.
> {"op":"check","peer":"a","left":"A","right":"B","pin":[1],"cert":{"format":1,"kind":"yes","lines":[{"label":["B","(not B)"],"peer":0,"why":{"name":"B","rule":"clash"}},{"label":["(not A)","A"],"peer":0,"why":{"name":"A","rule":"clash"}},{"label":["A","(not B)"],"peer":0,"why":{"axiom":0,"left":1,"right":0,"rule":"axiom"}}]}}
< {"check":"valid","id":7}
> {"op":"check","peer":"a","left":"A","right":"B","pin":[2],"cert":{"format":1,"kind":"no","links":[],"locals":[{"names":[["A",0]],"roles":[],"size":1}]}}
< {"check":"valid","id":8}
---
# A put at a peer that does not matter leaves an answer in the cache; one at a peer that does, does not.
> {"op":"peers","names":["a","b"]}
< {"id":1,"peers":2}
> {"op":"put","peer":"a","axioms":["(implies A B)"]}
< {"id":2,"put":"a","version":1}
> {"op":"ask","peer":"a","left":"A","right":"B"}
< {"cert":{"format":1,"kind":"yes","lines":[{"label":["B","(not B)"],"peer":0,"why":{"name":"B","rule":"clash"}},{"label":["(not A)","A"],"peer":0,"why":{"name":"A","rule":"clash"}},{"label":["A","(not B)"],"peer":0,"why":{"axiom":0,"left":1,"right":0,"rule":"axiom"}}]},"from":"search","id":3,"pin":[1,0],"verdict":"yes"}
> 
> {"op":"ask","peer":"a","left":"A","right":"B"}
< {"cert":{"format":1,"kind":"yes","lines":[{"label":["B","(not B)"],"peer":0,"why":{"name":"B","rule":"clash"}},{"label":["(not A)","A"],"peer":0,"why":{"name":"A","rule":"clash"}},{"label":["A","(not B)"],"peer":0,"why":{"axiom":0,"left":1,"right":0,"rule":"axiom"}}]},"from":"cache","id":4,"pin":[1,0],"verdict":"yes"}
> {"op":"put","peer":"b","axioms":["(implies X Y)"]}
< {"id":5,"put":"b","version":1}
> {"op":"ask","peer":"a","left":"A","right":"B"}
< {"cert":{"format":1,"kind":"yes","lines":[{"label":["B","(not B)"],"peer":0,"why":{"name":"B","rule":"clash"}},{"label":["(not A)","A"],"peer":0,"why":{"name":"A","rule":"clash"}},{"label":["A","(not B)"],"peer":0,"why":{"axiom":0,"left":1,"right":0,"rule":"axiom"}}]},"from":"cache","id":6,"pin":[1,1],"verdict":"yes"}
> {"op":"put","peer":"a"}
< {"id":7,"put":"a","version":2}
> {"op":"ask","peer":"a","left":"A","right":"B"}
< {"cert":{"format":1,"kind":"no","links":[],"locals":[{"names":[["A",0]],"roles":[],"size":1},{"names":[],"roles":[],"size":0}]},"from":"search","id":8,"pin":[2,1],"verdict":"no"}
# Each certificate is valid.
> {"op":"check","peer":"a","left":"A","right":"B","pin":[1,0],"cert":{"format":1,"kind":"yes","lines":[{"label":["B","(not B)"],"peer":0,"why":{"name":"B","rule":"clash"}},{"label":["(not A)","A"],"peer":0,"why":{"name":"A","rule":"clash"}},{"label":["A","(not B)"],"peer":0,"why":{"axiom":0,"left":1,"right":0,"rule":"axiom"}}]}}
< {"check":"valid","id":9}
> {"op":"check","peer":"a","left":"A","right":"B","pin":[1,0],"cert":{"format":1,"kind":"yes","lines":[{"label":["B","(not B)"],"peer":0,"why":{"name":"B","rule":"clash"}},{"label":["(not A)","A"],"peer":0,"why":{"name":"A","rule":"clash"}},{"label":["A","(not B)"],"peer":0,"why":{"axiom":0,"left":1,"right":0,"rule":"axiom"}}]}}
< {"check":"valid","id":10}
> {"op":"check","peer":"a","left":"A","right":"B","pin":[1,1],"cert":{"format":1,"kind":"yes","lines":[{"label":["B","(not B)"],"peer":0,"why":{"name":"B","rule":"clash"}},{"label":["(not A)","A"],"peer":0,"why":{"name":"A","rule":"clash"}},{"label":["A","(not B)"],"peer":0,"why":{"axiom":0,"left":1,"right":0,"rule":"axiom"}}]}}
< {"check":"valid","id":11}
> {"op":"check","peer":"a","left":"A","right":"B","pin":[2,1],"cert":{"format":1,"kind":"no","links":[],"locals":[{"names":[["A",0]],"roles":[],"size":1},{"names":[],"roles":[],"size":0}]}}
< {"check":"valid","id":12}
---
# Two equal asks of one window are both searched for. A spent answer is not kept, and a kept one is given whatever the budget.
> {"op":"peers","names":["a"]}
< {"id":1,"peers":1}
> {"op":"put","peer":"a","axioms":["(implies A (some r B))"]}
< {"id":2,"put":"a","version":1}
> {"op":"ask","peer":"a","left":"A","right":"C","expansions":1}
< {"count":1,"from":"search","id":3,"peer":0,"pin":[1],"spent":"run","verdict":"spent"}
> 
> {"op":"ask","peer":"a","left":"A","right":"C"}
< {"cert":{"format":1,"kind":"no","links":[],"locals":[{"names":[["A",0],["B",1]],"roles":[["r",0,1]],"size":2}]},"from":"search","id":4,"pin":[1],"verdict":"no"}
> {"op":"ask","peer":"a","left":"A","right":"C"}
< {"cert":{"format":1,"kind":"no","links":[],"locals":[{"names":[["A",0],["B",1]],"roles":[["r",0,1]],"size":2}]},"from":"search","id":5,"pin":[1],"verdict":"no"}
> 
> {"op":"ask","peer":"a","left":"A","right":"C","expansions":1}
< {"cert":{"format":1,"kind":"no","links":[],"locals":[{"names":[["A",0],["B",1]],"roles":[["r",0,1]],"size":2}]},"from":"cache","id":6,"pin":[1],"verdict":"no"}
# Each certificate is valid.
> {"op":"check","peer":"a","left":"A","right":"C","pin":[1],"cert":{"format":1,"kind":"no","links":[],"locals":[{"names":[["A",0],["B",1]],"roles":[["r",0,1]],"size":2}]}}
< {"check":"valid","id":7}
> {"op":"check","peer":"a","left":"A","right":"C","pin":[1],"cert":{"format":1,"kind":"no","links":[],"locals":[{"names":[["A",0],["B",1]],"roles":[["r",0,1]],"size":2}]}}
< {"check":"valid","id":8}
> {"op":"check","peer":"a","left":"A","right":"C","pin":[1],"cert":{"format":1,"kind":"no","links":[],"locals":[{"names":[["A",0],["B",1]],"roles":[["r",0,1]],"size":2}]}}
< {"check":"valid","id":9}
---
# A put that is refused within a window leaves the pins of the asks round it, and its names.
> {"op":"peers","names":["a","b"]}
< {"id":1,"peers":2}
> {"op":"put","peer":"a","into":[{"from":"zz","source":"N1","target":"N2"},{"from":"a","source":"N3","target":"N4"}]}
< {"code":8,"error":"same_peer","id":2,"n":1}
> {"op":"versions"}
< {"id":3,"versions":[0,0]}
> {"op":"ask","peer":"a","left":"A","right":"B"}
< {"cert":{"format":1,"kind":"no","links":[],"locals":[{"names":[["A",0]],"roles":[],"size":1},{"names":[],"roles":[],"size":0}]},"from":"search","id":4,"pin":[0,0],"verdict":"no"}
> {"op":"put","peer":"a","into":[{"from":"zz","source":"N1","target":"N2"}]}
< {"code":19,"error":"unknown_source","id":5,"n":0}
> {"op":"ask","peer":"a","left":"A","right":"B"}
< {"cert":{"format":1,"kind":"no","links":[],"locals":[{"names":[["A",0]],"roles":[],"size":1},{"names":[],"roles":[],"size":0}]},"from":"search","id":6,"pin":[0,0],"verdict":"no"}
# Each certificate is valid.
> {"op":"check","peer":"a","left":"A","right":"B","pin":[0,0],"cert":{"format":1,"kind":"no","links":[],"locals":[{"names":[["A",0]],"roles":[],"size":1},{"names":[],"roles":[],"size":0}]}}
< {"check":"valid","id":7}
> {"op":"check","peer":"a","left":"A","right":"B","pin":[0,0],"cert":{"format":1,"kind":"no","links":[],"locals":[{"names":[["A",0]],"roles":[],"size":1},{"names":[],"roles":[],"size":0}]}}
< {"check":"valid","id":8}
---
# 64 into rules from one peer are accepted, and 65 are not.
> {"op":"peers","names":["a","b"]}
< {"id":1,"peers":2}
> {"op":"put","peer":"a","into":[{"from":"b","source":"A","target":"B"}~64*,{"from":"b","source":"A","target":"B"}~]}
< {"code":10,"error":"too_many_rules","id":2,"n":65}
> {"op":"put","peer":"a","into":[{"from":"b","source":"A","target":"B"}~63*,{"from":"b","source":"A","target":"B"}~]}
< {"id":3,"put":"a","version":1}
---
# Pins that are too short, too long, and of a version that is not there.
> {"op":"peers","names":["a","b"]}
< {"id":1,"peers":2}
> {"op":"put","peer":"a"}
< {"id":2,"put":"a","version":1}
> {"op":"check","peer":"a","left":"A","right":"B","pin":[1],"cert":{}}
< {"code":18,"error":"bad_pin","id":3}
> {"op":"check","peer":"a","left":"A","right":"B","pin":[1,0,0],"cert":{}}
< {"code":18,"error":"bad_pin","id":4}
> {"op":"check","peer":"a","left":"A","right":"B","pin":[1,1],"cert":{}}
< {"code":18,"error":"bad_pin","id":5}
> {"op":"check","peer":"a","left":"A","right":"B","pin":[1,0],"cert":{}}
< {"check":"unreadable","field":"format","id":6}
"#;

#[test]
fn asks_keep_the_versions_of_their_line(rt: HostRuntime) -> Result<(), Failure> {
    follows(rt.alloc(), VERSIONS)
}
