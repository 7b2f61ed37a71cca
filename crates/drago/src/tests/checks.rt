use super::transcript::{Failure, follows};

/// Checks of worlds.
const CHECKS: &str = r#"
# Under an axiom between names.
> {"op":"peers","names":["a"]}
< {"id":1,"peers":1}
> {"op":"put","peer":"a","axioms":["(implies A B)"]}
< {"id":2,"put":"a","version":1}
# A countermodel satisfies the axioms and refutes the query.
> {"op":"check","peer":"a","left":"A","right":"C","pin":[1],"cert":{"format":1,"kind":"no","links":[],"locals":[{"names":[["A",0],["B",0]],"roles":[],"size":1}]}}
< {"check":"valid","id":3}
> {"op":"check","peer":"a","left":"A","right":"C","pin":[1],"cert":{"format":1,"kind":"no","links":[],"locals":[{"names":[["A",0]],"roles":[],"size":1}]}}
< {"check":"invalid","fault":"axiom","id":4,"index":0,"peer":0}
> {"op":"check","peer":"a","left":"A","right":"C","pin":[1],"cert":{"format":1,"kind":"no","links":[],"locals":[{"names":[["A",0],["B",0],["C",0]],"roles":[],"size":1}]}}
< {"check":"invalid","fault":"not_counter","id":5}
# It does so under the versions of its pin.
> {"op":"check","peer":"a","left":"A","right":"C","pin":[0],"cert":{"format":1,"kind":"no","links":[],"locals":[{"names":[["A",0]],"roles":[],"size":1}]}}
< {"check":"valid","id":6}
> {"op":"check","peer":"a","left":"A","right":"C","pin":[1],"cert":{"format":1,"kind":"no","links":[],"locals":[{"names":[["A",0]],"roles":[],"size":1}]}}
< {"check":"invalid","fault":"axiom","id":7,"index":0,"peer":0}
> {"op":"check","peer":"a","left":"A","right":"C","pin":[2],"cert":{"format":1,"kind":"no","links":[],"locals":[{"names":[["A",0]],"roles":[],"size":1}]}}
< {"code":18,"error":"bad_pin","id":8}
> {"op":"check","peer":"a","left":"A","right":"C","pin":[4294967295],"cert":{"format":1,"kind":"no","links":[],"locals":[{"names":[["A",0]],"roles":[],"size":1}]}}
< {"code":18,"error":"bad_pin","id":9}
> {"op":"check","peer":"a","left":"A","right":"C","pin":[],"cert":{"format":1,"kind":"no","links":[],"locals":[{"names":[["A",0]],"roles":[],"size":1}]}}
< {"code":18,"error":"bad_pin","id":10}
> {"op":"check","peer":"a","left":"A","right":"C","pin":[0,0],"cert":{"format":1,"kind":"no","links":[],"locals":[{"names":[["A",0]],"roles":[],"size":1}]}}
< {"code":18,"error":"bad_pin","id":11}
> {"op":"check","peer":"a","left":"A","right":"C","pin":[4294967296],"cert":{"format":1,"kind":"no","links":[],"locals":[{"names":[["A",0]],"roles":[],"size":1}]}}
< {"code":2,"error":"bad_shape","id":12}
---
# Under axioms with a role.
> {"op":"peers","names":["a"]}
< {"id":1,"peers":1}
> {"op":"put","peer":"a","axioms":["(implies A (some r B))","(implies B (all r C))"]}
< {"id":2,"put":"a","version":1}
# The first axiom that fails is told.
> {"op":"check","peer":"a","left":"A","right":"C","pin":[1],"cert":{"format":1,"kind":"no","links":[],"locals":[{"names":[["A",0],["B",1]],"roles":[["r",0,1]],"size":2}]}}
< {"check":"valid","id":3}
> {"op":"check","peer":"a","left":"A","right":"C","pin":[1],"cert":{"format":1,"kind":"no","links":[],"locals":[{"names":[["B",1],["A",0],["A",0],["D",1]],"roles":[["s",1,1],["r",0,1]],"size":2}]}}
< {"check":"valid","id":4}
> {"op":"check","peer":"a","left":"A","right":"C","pin":[1],"cert":{"format":1,"kind":"no","links":[],"locals":[{"names":[["A",0],["B",1]],"roles":[],"size":2}]}}
< {"check":"invalid","fault":"axiom","id":5,"index":0,"peer":0}
> {"op":"check","peer":"a","left":"A","right":"C","pin":[1],"cert":{"format":1,"kind":"no","links":[],"locals":[{"names":[["A",0],["B",1]],"roles":[["s",0,1]],"size":2}]}}
< {"check":"invalid","fault":"axiom","id":6,"index":0,"peer":0}
> {"op":"check","peer":"a","left":"A","right":"C","pin":[1],"cert":{"format":1,"kind":"no","links":[],"locals":[{"names":[["A",0],["B",1]],"roles":[["r",1,0]],"size":2}]}}
< {"check":"invalid","fault":"axiom","id":7,"index":0,"peer":0}
> {"op":"check","peer":"a","left":"A","right":"C","pin":[1],"cert":{"format":1,"kind":"no","links":[],"locals":[{"names":[["A",0],["B",1]],"roles":[["r",0,1],["r",1,0]],"size":2}]}}
< {"check":"invalid","fault":"axiom","id":8,"index":1,"peer":0}
> {"op":"check","peer":"a","left":"A","right":"C","pin":[1],"cert":{"format":1,"kind":"no","links":[],"locals":[{"names":[["A",0],["B",1],["C",0]],"roles":[["r",0,1],["r",1,0]],"size":2}]}}
< {"check":"invalid","fault":"not_counter","id":9}
> {"op":"check","peer":"a","left":"A","right":"C","pin":[1],"cert":{"format":1,"kind":"no","links":[],"locals":[{"names":[],"roles":[],"size":2}]}}
< {"check":"invalid","fault":"not_counter","id":10}
# The shape of the world comes before the axioms.
> {"op":"check","peer":"a","left":"A","right":"C","pin":[1],"cert":{"format":1,"kind":"no","links":[],"locals":[{"names":[],"roles":[],"size":0}]}}
< {"check":"invalid","fault":"not_counter","id":11}
> {"op":"check","peer":"a","left":"A","right":"C","pin":[1],"cert":{"format":1,"kind":"no","links":[],"locals":[]}}
< {"check":"invalid","fault":"shape","id":12}
> {"op":"check","peer":"a","left":"A","right":"C","pin":[1],"cert":{"format":1,"kind":"no","links":[],"locals":[{"names":[["A",0],["B",0]],"roles":[["r",0,0]],"size":1},{"names":[],"roles":[],"size":0}]}}
< {"check":"invalid","fault":"shape","id":13}
> {"op":"check","peer":"a","left":"A","right":"C","pin":[1],"cert":{"format":1,"kind":"no","links":[],"locals":[{"names":[["A",0]],"roles":[],"size":0}]}}
< {"check":"invalid","fault":"shape","id":14}
> {"op":"check","peer":"a","left":"A","right":"C","pin":[1],"cert":{"format":1,"kind":"no","links":[],"locals":[{"names":[["A",0],["D",2]],"roles":[],"size":2}]}}
< {"check":"invalid","fault":"shape","id":15}
> {"op":"check","peer":"a","left":"A","right":"C","pin":[1],"cert":{"format":1,"kind":"no","links":[],"locals":[{"names":[["A",0]],"roles":[["r",2,0]],"size":2}]}}
< {"check":"invalid","fault":"shape","id":16}
> {"op":"check","peer":"a","left":"A","right":"C","pin":[1],"cert":{"format":1,"kind":"no","links":[],"locals":[{"names":[["A",0]],"roles":[["r",0,2]],"size":2}]}}
< {"check":"invalid","fault":"shape","id":17}
> {"op":"check","peer":"a","left":"A","right":"C","pin":[1],"cert":{"format":1,"kind":"no","links":[[0,0,0,1]],"locals":[{"names":[["A",0]],"roles":[],"size":2}]}}
< {"check":"invalid","fault":"shape","id":18}
> {"op":"check","peer":"a","left":"A","right":"C","pin":[1],"cert":{"format":1,"kind":"no","links":[[0,1,0,0]],"locals":[{"names":[["A",0]],"roles":[],"size":2}]}}
< {"check":"invalid","fault":"shape","id":19}
---
# Before the first put, by a world where A = {0, 1}, B = {1} and r = {(0, 1)}. An element refutes a query that it has the left
# side of, and not the right one.
> {"op":"peers","names":["a"]}
< {"id":1,"peers":1}
> {"op":"check","peer":"a","left":"A","right":"B","pin":[0],"cert":{"locals":[{"size":2,"names":[["A",0],["A",1],["B",1]],"roles":[["r",0,1]]}],"links":[],"kind":"no","format":1}}
< {"check":"valid","id":2}
> {"op":"check","peer":"a","left":"B","right":"A","pin":[0],"cert":{"locals":[{"size":2,"names":[["A",0],["A",1],["B",1]],"roles":[["r",0,1]]}],"links":[],"kind":"no","format":1}}
< {"check":"invalid","fault":"not_counter","id":3}
> {"op":"check","peer":"a","left":"top","right":"A","pin":[0],"cert":{"locals":[{"size":2,"names":[["A",0],["A",1],["B",1]],"roles":[["r",0,1]]}],"links":[],"kind":"no","format":1}}
< {"check":"invalid","fault":"not_counter","id":4}
> {"op":"check","peer":"a","left":"A","right":"bottom","pin":[0],"cert":{"locals":[{"size":2,"names":[["A",0],["A",1],["B",1]],"roles":[["r",0,1]]}],"links":[],"kind":"no","format":1}}
< {"check":"valid","id":5}
> {"op":"check","peer":"a","left":"bottom","right":"B","pin":[0],"cert":{"locals":[{"size":2,"names":[["A",0],["A",1],["B",1]],"roles":[["r",0,1]]}],"links":[],"kind":"no","format":1}}
< {"check":"invalid","fault":"not_counter","id":6}
> {"op":"check","peer":"a","left":"(some r B)","right":"B","pin":[0],"cert":{"locals":[{"size":2,"names":[["A",0],["A",1],["B",1]],"roles":[["r",0,1]]}],"links":[],"kind":"no","format":1}}
< {"check":"valid","id":7}
> {"op":"check","peer":"a","left":"(all r bottom)","right":"B","pin":[0],"cert":{"locals":[{"size":2,"names":[["A",0],["A",1],["B",1]],"roles":[["r",0,1]]}],"links":[],"kind":"no","format":1}}
< {"check":"invalid","fault":"not_counter","id":8}
> {"op":"check","peer":"a","left":"(not B)","right":"(some r A)","pin":[0],"cert":{"locals":[{"size":2,"names":[["A",0],["A",1],["B",1]],"roles":[["r",0,1]]}],"links":[],"kind":"no","format":1}}
< {"check":"invalid","fault":"not_counter","id":9}
> {"op":"check","peer":"a","left":"(and A (not B))","right":"(all r (or B C))","pin":[0],"cert":{"locals":[{"size":2,"names":[["A",0],["A",1],["B",1]],"roles":[["r",0,1]]}],"links":[],"kind":"no","format":1}}
< {"check":"invalid","fault":"not_counter","id":10}
> {"op":"check","peer":"a","left":"(or A B)","right":"(and A B)","pin":[0],"cert":{"locals":[{"size":2,"names":[["A",0],["A",1],["B",1]],"roles":[["r",0,1]]}],"links":[],"kind":"no","format":1}}
< {"check":"valid","id":11}
> {"op":"check","peer":"a","left":"(all s bottom)","right":"(some r top)","pin":[0],"cert":{"locals":[{"size":2,"names":[["A",0],["A",1],["B",1]],"roles":[["r",0,1]]}],"links":[],"kind":"no","format":1}}
< {"check":"valid","id":12}
"#;

#[test]
fn worlds_are_judged(rt: HostRuntime) -> Result<(), Failure> {
    follows(rt.alloc(), CHECKS)
}
