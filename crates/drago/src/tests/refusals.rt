use super::transcript::{Failure, follows};

/// Lines that are refused, and others that are answered between them as if those had not come.
const REFUSED: &str = r#"
> {"op":"peers","names":["a"]}
< {"id":1,"peers":1}
# A put that is refused leaves the first one open.
> {"op":"put","peer":"a","axioms":["(implies X Y)","(implies X)","X"]}
< {"code":3,"error":"bad_concept","id":2,"n":1}
> {"op":"put","peer":"b","axioms":["(implies X)"]}
< {"code":7,"error":"unknown_peer","id":3}
> {"op":"put","peer":"a","axioms":["(implies X Y)"],"into":[{"from":"b","source":"X","target":"Y"}]}
< {"code":19,"error":"unknown_source","id":4,"n":0}
> {"op":"put","peer":"a","into":[{"from":"b","source":"X","target":"Y"}],"onto":[{"from":"a","source":"X","target":"Y"}]}
< {"code":8,"error":"same_peer","id":5,"n":1}
> {"op":"put","peer":"a","axioms":"(implies X Y)"}
< {"code":2,"error":"bad_shape","id":6}
> {"op":"check","peer":"a","left":"X","right":"Y Z","pin":[0],"cert":{}}
< {"code":3,"error":"bad_concept","id":7,"n":1}
> {"op":"check","peer":"a","left":"X","right":"Y","pin":[1],"cert":{}}
< {"code":18,"error":"bad_pin","id":8}
> {"op":"check","peer":"a","left":"X","right":"Y","pin":[0],"cert":{"format":1,"kind":"no","links":[],"locals":[{"names":[["X",0]],"roles":[],"size":1}]}}
< {"check":"valid","id":9}
# A text is in the grammar to the byte.
> {"op":"put","peer":"a","axioms":["(implies top (some r (all r bottom)))","","("]}
< {"code":3,"error":"bad_concept","id":10,"n":1}
> {"op":"put","peer":"a","axioms":["(implies top (some r (all r bottom)))","A","("]}
< {"code":3,"error":"bad_concept","id":11,"n":1}
> {"op":"put","peer":"a","axioms":["(implies top (some r (all r bottom)))","implies A B","("]}
< {"code":3,"error":"bad_concept","id":12,"n":1}
> {"op":"put","peer":"a","axioms":["(implies top (some r (all r bottom)))","(implies A)","("]}
< {"code":3,"error":"bad_concept","id":13,"n":1}
> {"op":"put","peer":"a","axioms":["(implies top (some r (all r bottom)))","(implies A B","("]}
< {"code":3,"error":"bad_concept","id":14,"n":1}
> {"op":"put","peer":"a","axioms":["(implies top (some r (all r bottom)))","(implies A B C)","("]}
< {"code":3,"error":"bad_concept","id":15,"n":1}
> {"op":"put","peer":"a","axioms":["(implies top (some r (all r bottom)))","(implies A B))","("]}
< {"code":3,"error":"bad_concept","id":16,"n":1}
> {"op":"put","peer":"a","axioms":["(implies top (some r (all r bottom)))","(implies A B) ","("]}
< {"code":3,"error":"bad_concept","id":17,"n":1}
> {"op":"put","peer":"a","axioms":["(implies top (some r (all r bottom)))"," (implies A B)","("]}
< {"code":3,"error":"bad_concept","id":18,"n":1}
> {"op":"put","peer":"a","axioms":["(implies top (some r (all r bottom)))","( implies A B)","("]}
< {"code":3,"error":"bad_concept","id":19,"n":1}
> {"op":"put","peer":"a","axioms":["(implies top (some r (all r bottom)))","(implies A  B)","("]}
< {"code":3,"error":"bad_concept","id":20,"n":1}
> {"op":"put","peer":"a","axioms":["(implies top (some r (all r bottom)))","(implies A\tB)","("]}
< {"code":3,"error":"bad_concept","id":21,"n":1}
> {"op":"put","peer":"a","axioms":["(implies top (some r (all r bottom)))","(implies A\nB)","("]}
< {"code":3,"error":"bad_concept","id":22,"n":1}
> {"op":"put","peer":"a","axioms":["(implies top (some r (all r bottom)))","(subrole A B)","("]}
< {"code":3,"error":"bad_concept","id":23,"n":1}
> {"op":"put","peer":"a","axioms":["(implies top (some r (all r bottom)))","(Implies A B)","("]}
< {"code":3,"error":"bad_concept","id":24,"n":1}
> {"op":"put","peer":"a","axioms":["(implies top (some r (all r bottom)))","(implies A implies)","("]}
< {"code":3,"error":"bad_concept","id":25,"n":1}
> {"op":"put","peer":"a","axioms":["(implies top (some r (all r bottom)))","(implies subrole B)","("]}
< {"code":3,"error":"bad_concept","id":26,"n":1}
> {"op":"put","peer":"a","axioms":["(implies top (some r (all r bottom)))","(implies not B)","("]}
< {"code":3,"error":"bad_concept","id":27,"n":1}
> {"op":"put","peer":"a","axioms":["(implies top (some r (all r bottom)))","(implies (not) B)","("]}
< {"code":3,"error":"bad_concept","id":28,"n":1}
> {"op":"put","peer":"a","axioms":["(implies top (some r (all r bottom)))","(implies (not A B) C)","("]}
< {"code":3,"error":"bad_concept","id":29,"n":1}
> {"op":"put","peer":"a","axioms":["(implies top (some r (all r bottom)))","(implies (and A) B)","("]}
< {"code":3,"error":"bad_concept","id":30,"n":1}
> {"op":"put","peer":"a","axioms":["(implies top (some r (all r bottom)))","(implies (or A B C) D)","("]}
< {"code":3,"error":"bad_concept","id":31,"n":1}
> {"op":"put","peer":"a","axioms":["(implies top (some r (all r bottom)))","(implies (some r) B)","("]}
< {"code":3,"error":"bad_concept","id":32,"n":1}
> {"op":"put","peer":"a","axioms":["(implies top (some r (all r bottom)))","(implies (some (not r) A) B)","("]}
< {"code":3,"error":"bad_concept","id":33,"n":1}
> {"op":"put","peer":"a","axioms":["(implies top (some r (all r bottom)))","(implies (all top A) B)","("]}
< {"code":3,"error":"bad_concept","id":34,"n":1}
> {"op":"put","peer":"a","axioms":["(implies top (some r (all r bottom)))","(implies 1A B)","("]}
< {"code":3,"error":"bad_concept","id":35,"n":1}
> {"op":"put","peer":"a","axioms":["(implies top (some r (all r bottom)))","(implies A? B)","("]}
< {"code":3,"error":"bad_concept","id":36,"n":1}
> {"op":"put","peer":"a","axioms":["(implies top (some r (all r bottom)))","(implies é B)","("]}
< {"code":3,"error":"bad_concept","id":37,"n":1}
> {"op":"put","peer":"a","axioms":["(implies A B)","(implies B C)"]}
< {"id":38,"put":"a","version":1}
# Peers are declared once, and no other peer is known.
> {"op":"peers","names":["a"]}
< {"code":5,"error":"peers_twice","id":39}
> {"op":"peers","names":[]}
< {"code":5,"error":"peers_twice","id":40}
> {"op":"versions"}
< {"id":41,"versions":[1]}
> {"op":"put","peer":"a","axioms":["(implies A D)","A"]}
< {"code":3,"error":"bad_concept","id":42,"n":1}
> {"op":"put","peer":"a","axioms":["X"]}
< {"code":3,"error":"bad_concept","id":43,"n":0}
> {"op":"put","peer":"top"}
< {"code":7,"error":"unknown_peer","id":44}
> {"op":"ask","peer":"b","left":"(","right":"C"}
< {"code":7,"error":"unknown_peer","id":45}
> {"op":"ask","peer":"a","left":"A","right":"C","verdicts":1}
< {"cert":{"format":1,"kind":"yes","lines":[{"label":["C","(not C)"],"peer":0,"why":{"name":"C","rule":"clash"}},{"label":["B","(not B)"],"peer":0,"why":{"name":"B","rule":"clash"}},{"label":["B","(not C)"],"peer":0,"why":{"axiom":1,"left":1,"right":0,"rule":"axiom"}},{"label":["(not A)","A"],"peer":0,"why":{"name":"A","rule":"clash"}},{"label":["A","(not C)"],"peer":0,"why":{"axiom":0,"left":3,"right":2,"rule":"axiom"}}]},"from":"search","id":46,"pin":[1],"verdict":"yes"}
> {"op":"ask","peer":"a","left":"(not A","right":"C","verdicts":0}
< {"code":3,"error":"bad_concept","id":47,"n":0}
> {"op":"ask","peer":"a","left":"A","right":"C","expansions":0,"verdicts":0}
< {"code":14,"error":"bad_budget","id":48}
> {"op":"ask","peer":"a","left":"A","right":"C","verdicts":18446744073709551615}
< {"code":14,"error":"bad_budget","id":49}
> {"op":"check","peer":"b","left":"(","right":"C","pin":[1],"cert":{}}
< {"code":7,"error":"unknown_peer","id":50}
> {"op":"check","peer":"a","left":"(","right":"C","pin":[],"cert":{"kind":"yes"}}
< {"code":3,"error":"bad_concept","id":51,"n":0}
# An answer that was kept is given again.
> {"op":"ask","peer":"a","left":"A","right":"C"}
< {"cert":{"format":1,"kind":"yes","lines":[{"label":["C","(not C)"],"peer":0,"why":{"name":"C","rule":"clash"}},{"label":["B","(not B)"],"peer":0,"why":{"name":"B","rule":"clash"}},{"label":["B","(not C)"],"peer":0,"why":{"axiom":1,"left":1,"right":0,"rule":"axiom"}},{"label":["(not A)","A"],"peer":0,"why":{"name":"A","rule":"clash"}},{"label":["A","(not C)"],"peer":0,"why":{"axiom":0,"left":3,"right":2,"rule":"axiom"}}]},"from":"cache","id":52,"pin":[1],"verdict":"yes"}
# A value of no form is refused.
> null
< {"code":2,"error":"bad_shape","id":53}
> 7
< {"code":2,"error":"bad_shape","id":54}
> "versions"
< {"code":2,"error":"bad_shape","id":55}
> []
< {"code":2,"error":"bad_shape","id":56}
> {}
< {"code":2,"error":"bad_shape","id":57}
> {"op":"Ask","peer":"a","left":"A","right":"C"}
< {"code":2,"error":"bad_shape","id":58}
> {"op":["versions"]}
< {"code":2,"error":"bad_shape","id":59}
> {"op":"versions","peer":"a"}
< {"code":2,"error":"bad_shape","id":60}
> {"op":"peers"}
< {"code":2,"error":"bad_shape","id":61}
> {"op":"peers","names":"a"}
< {"code":2,"error":"bad_shape","id":62}
> {"op":"peers","names":["a",null]}
< {"code":2,"error":"bad_shape","id":63}
> {"op":"put","peer":"a","axioms":null}
< {"code":2,"error":"bad_shape","id":64}
> {"op":"put","peer":"a","axioms":[1]}
< {"code":2,"error":"bad_shape","id":65}
> {"op":"put","peer":"a","into":[{"from":"b","source":"X"}]}
< {"code":2,"error":"bad_shape","id":66}
> {"op":"put","peer":"a","onto":[{"from":"b","source":"X","target":"Y","x":0}]}
< {"code":2,"error":"bad_shape","id":67}
> {"op":"ask","peer":"a","left":"A"}
< {"code":2,"error":"bad_shape","id":68}
> {"op":"ask","peer":"a","left":"A","right":"C","pin":[1]}
< {"code":2,"error":"bad_shape","id":69}
> {"op":"check","peer":"a","left":"A","right":"C","pin":[1]}
< {"code":2,"error":"bad_shape","id":70}
> {"op":"check","peer":"a","left":"A","right":"C","pin":1,"cert":{}}
< {"code":2,"error":"bad_shape","id":71}
> {"op":"check","peer":"a","left":"A","right":"C","pin":[1.0],"cert":{}}
< {"code":2,"error":"bad_shape","id":72}
> {"op":"check","peer":"a","left":"A","right":"C","pin":[4294967296],"cert":{"kind":"yes"}}
< {"code":2,"error":"bad_shape","id":73}
> 1e999
< {"code":1,"error":"bad_json","id":74}
> {"op":"versions"} x
< {"code":1,"error":"bad_json","id":75}
> {"op":"ask","peer":"a"
< {"code":1,"error":"bad_json","id":76}
> null null
< {"code":1,"error":"bad_json","id":77}
# A number has digits alone.
> {"op":"ask","peer":"a","left":"A","right":"C","expansions":1.0}
< {"code":2,"error":"bad_shape","id":78}
> {"op":"ask","peer":"a","left":"A","right":"C","expansions":-0}
< {"code":2,"error":"bad_shape","id":79}
> {"op":"ask","peer":"a","left":"A","right":"C","expansions":-1}
< {"code":2,"error":"bad_shape","id":80}
> {"op":"ask","peer":"a","left":"A","right":"C","expansions":1e3}
< {"code":2,"error":"bad_shape","id":81}
> {"op":"ask","peer":"a","left":"A","right":"C","expansions":18446744073709551616}
< {"code":2,"error":"bad_shape","id":82}
> {"op":"ask","peer":"a","left":"A","right":"C","expansions":null}
< {"code":2,"error":"bad_shape","id":83}
> {"op":"ask","peer":"a","left":"A","right":"C","expansions":"1"}
< {"code":2,"error":"bad_shape","id":84}
# The last of equal members counts.
> {"op":"versions","left":"C","op":"ask","peer":"b","right":7,"peer":"a","left":"\u0041","right":"C"}
< {"cert":{"format":1,"kind":"yes","lines":[{"label":["C","(not C)"],"peer":0,"why":{"name":"C","rule":"clash"}},{"label":["B","(not B)"],"peer":0,"why":{"name":"B","rule":"clash"}},{"label":["B","(not C)"],"peer":0,"why":{"axiom":1,"left":1,"right":0,"rule":"axiom"}},{"label":["(not A)","A"],"peer":0,"why":{"name":"A","rule":"clash"}},{"label":["A","(not C)"],"peer":0,"why":{"axiom":0,"left":3,"right":2,"rule":"axiom"}}]},"from":"cache","id":85,"pin":[1],"verdict":"yes"}
> {"op":"ask","peer":"a","left":"A","right":"C","left":"C","right":"A"}
< {"cert":{"format":1,"kind":"no","links":[],"locals":[{"names":[["C",0]],"roles":[],"size":1}]},"from":"search","id":86,"pin":[1],"verdict":"no"}
> {"op":"check","peer":"a","left":"A","right":"D","pin":[9],"cert":{"kind":"yes"},"pin":[0],"cert":{"kind":"yes","kind":"no","format":1,"links":7,"links":[],"locals":[{"names":[["A",0]],"roles":[],"size":0,"size":1}]}}
< {"check":"valid","id":87}
> {"op":"ask","peer":"a","left":"A","right":"C"}
< {"cert":{"format":1,"kind":"yes","lines":[{"label":["C","(not C)"],"peer":0,"why":{"name":"C","rule":"clash"}},{"label":["B","(not B)"],"peer":0,"why":{"name":"B","rule":"clash"}},{"label":["B","(not C)"],"peer":0,"why":{"axiom":1,"left":1,"right":0,"rule":"axiom"}},{"label":["(not A)","A"],"peer":0,"why":{"name":"A","rule":"clash"}},{"label":["A","(not C)"],"peer":0,"why":{"axiom":0,"left":3,"right":2,"rule":"axiom"}}]},"from":"cache","id":88,"pin":[1],"verdict":"yes"}
# An ask is refused by its texts, then by their sizes, then by its budget.
> {"op":"ask","peer":"a","left":"(not A","right":"(","expansions":0}
< {"code":3,"error":"bad_concept","id":89,"n":0}
> {"op":"ask","peer":"a","left":"~64*(not ~A~64*)~","right":"C D","expansions":0}
< {"code":3,"error":"bad_concept","id":90,"n":1}
> {"op":"ask","peer":"a","left":"A","right":"~64*(not ~A~64*)~","expansions":0}
< {"code":11,"error":"concept_limit","id":91,"n":1}
> {"op":"ask","peer":"a","left":"A","right":"C","expansions":0}
< {"code":14,"error":"bad_budget","id":92}
> {"op":"ask","peer":"a","left":"A","right":"(all r C)","expansions":1}
< {"count":1,"from":"search","id":93,"peer":0,"pin":[1],"spent":"run","verdict":"spent"}
> {"op":"ask","peer":"a","left":"A","right":"(all r C)","expansions":200000}
< {"cert":{"format":1,"kind":"no","links":[],"locals":[{"names":[["B",0],["C",0],["A",0]],"roles":[["r",0,1]],"size":2}]},"from":"search","id":94,"pin":[1],"verdict":"no"}
> {"op":"ask","peer":"a","left":"A","right":"C","expansions":200001}
< {"code":14,"error":"bad_budget","id":95}
> {"op":"ask","peer":"a","left":"A","right":"C","expansions":9223372036854775808}
< {"code":14,"error":"bad_budget","id":96}
> {"op":"ask","peer":"a","left":"A","right":"C","expansions":18446744073709551615}
< {"code":14,"error":"bad_budget","id":97}
> {"op":"ask","peer":"a","left":"A","right":"C"}
< {"cert":{"format":1,"kind":"yes","lines":[{"label":["C","(not C)"],"peer":0,"why":{"name":"C","rule":"clash"}},{"label":["B","(not B)"],"peer":0,"why":{"name":"B","rule":"clash"}},{"label":["B","(not C)"],"peer":0,"why":{"axiom":1,"left":1,"right":0,"rule":"axiom"}},{"label":["(not A)","A"],"peer":0,"why":{"name":"A","rule":"clash"}},{"label":["A","(not C)"],"peer":0,"why":{"axiom":0,"left":3,"right":2,"rule":"axiom"}}]},"from":"cache","id":98,"pin":[1],"verdict":"yes"}
"#;

#[test]
fn a_refused_line_changes_nothing(rt: HostRuntime) -> Result<(), Failure> {
    follows(rt.alloc(), REFUSED)
}
