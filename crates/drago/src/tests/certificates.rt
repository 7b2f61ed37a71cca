use super::transcript::{Failure, follows};

/// Checks whose certificates cannot be read.
const UNREAD: &str = r#"
> {"op":"peers","names":["a"]}
< {"id":1,"peers":1}
# A certificate is read after the pin.
> {"op":"check","peer":"a","left":"A","right":"C","pin":[0],"cert":{}}
< {"check":"unreadable","field":"format","id":2}
> {"op":"check","peer":"a","left":"A","right":"C","pin":[1],"cert":{}}
< {"code":18,"error":"bad_pin","id":3}
> {"op":"check","peer":"a","left":"A","right":"C","pin":[],"cert":null}
< {"code":18,"error":"bad_pin","id":4}
> {"op":"check","peer":"a","left":"A","right":"C","pin":[0],"cert":{"kind":"yes"}}
< {"check":"unreadable","field":"format","id":5}
> {"op":"check","peer":"a","left":"A","right":"C","pin":[1],"cert":{"format":1,"kind":"yes","lines":[]}}
< {"code":18,"error":"bad_pin","id":6}
# The member that has another form is told.
> {"op":"check","peer":"a","left":"A","right":"C","pin":[0],"cert":7}
< {"check":"unreadable","field":"format","id":7}
> {"op":"check","peer":"a","left":"A","right":"C","pin":[0],"cert":"no"}
< {"check":"unreadable","field":"format","id":8}
> {"op":"check","peer":"a","left":"A","right":"C","pin":[0],"cert":[]}
< {"check":"unreadable","field":"format","id":9}
> {"op":"check","peer":"a","left":"A","right":"C","pin":[0],"cert":{"format":2,"kind":"no","links":[],"locals":[]}}
< {"check":"unreadable","field":"format","id":10}
> {"op":"check","peer":"a","left":"A","right":"C","pin":[0],"cert":{"format":"1","kind":"no","links":[],"locals":[]}}
< {"check":"unreadable","field":"format","id":11}
> {"op":"check","peer":"a","left":"A","right":"C","pin":[0],"cert":{"format":1}}
< {"check":"unreadable","field":"kind","id":12}
> {"op":"check","peer":"a","left":"A","right":"C","pin":[0],"cert":{"format":1,"kind":"maybe","links":[],"locals":[]}}
< {"check":"unreadable","field":"kind","id":13}
> {"op":"check","peer":"a","left":"A","right":"C","pin":[0],"cert":{"format":1,"kind":"no","links":[],"locals":[],"x":0}}
< {"check":"unreadable","field":"kind","id":14}
> {"op":"check","peer":"a","left":"A","right":"C","pin":[0],"cert":{"format":1,"kind":"no","locals":[]}}
< {"check":"unreadable","field":"links","id":15}
> {"op":"check","peer":"a","left":"A","right":"C","pin":[0],"cert":{"format":1,"kind":"no","links":[[0,1,0]],"locals":7}}
< {"check":"unreadable","field":"links","id":16}
> {"op":"check","peer":"a","left":"A","right":"C","pin":[0],"cert":{"format":1,"kind":"no","links":[]}}
< {"check":"unreadable","field":"locals","id":17}
> {"op":"check","peer":"a","left":"A","right":"C","pin":[0],"cert":{"format":1,"kind":"no","links":[],"locals":[{"names":[],"roles":[]}]}}
< {"check":"unreadable","field":"locals","id":18}
> {"op":"check","peer":"a","left":"A","right":"C","pin":[0],"cert":{"format":1,"kind":"no","links":[],"locals":[{"names":[["A",-1]],"roles":[],"size":1}]}}
< {"check":"unreadable","field":"locals","id":19}
> {"op":"check","peer":"a","left":"A","right":"C","pin":[0],"cert":{"format":1,"kind":"no","links":[],"locals":[{"names":[["top",0]],"roles":[],"size":18446744073709551616}]}}
< {"check":"unreadable","field":"locals","id":20}
> {"op":"check","peer":"a","left":"A","right":"C","pin":[0],"cert":{"format":1.0,"kind":"no","links":[],"locals":[]}}
< {"check":"unreadable","field":"format","id":21}
> {"op":"check","peer":"a","left":"A","right":"C","pin":[0],"cert":{"format":1,"kind":"no","links":7,"locals":[],"x":0}}
< {"check":"unreadable","field":"kind","id":22}
> {"op":"check","peer":"a","left":"A","right":"C","pin":[0],"cert":{"format":1,"kind":"no","links":[],"locals":[{"names":[["A",0]],"roles":[],"size":-1}]}}
< {"check":"unreadable","field":"locals","id":23}
# The first number above the limit is told with its place, and then the first text that is no name.
> {"op":"check","peer":"a","left":"A","right":"C","pin":[0],"cert":{"format":1,"kind":"no","links":[[0,1,4294967296,0]],"locals":[{"names":[["top",0]],"roles":[],"size":1}]}}
< {"check":"unreadable","id":24,"place":2,"value":4294967296}
> {"op":"check","peer":"a","left":"A","right":"C","pin":[0],"cert":{"format":1,"kind":"no","links":[[0,1,4294967295,0]],"locals":[{"size":9999999999,"roles":[["r",0,1]],"names":[["A",0]]}]}}
< {"check":"unreadable","id":25,"place":7,"value":9999999999}
> {"op":"check","peer":"a","left":"A","right":"C","pin":[0],"cert":{"format":1,"kind":"no","links":[],"locals":[{"names":[],"roles":[],"size":1},{"names":[],"roles":[],"size":18446744073709551615}]}}
< {"check":"unreadable","id":26,"place":1,"value":18446744073709551615}
> {"op":"check","peer":"a","left":"A","right":"C","pin":[0],"cert":{"format":1,"kind":"no","links":[],"locals":[{"names":[["top",0]],"roles":[],"size":1}]}}
< {"check":"unreadable","id":27,"text":0}
> {"op":"check","peer":"a","left":"A","right":"C","pin":[0],"cert":{"format":1,"kind":"no","links":[],"locals":[{"size":1,"roles":[["r",0,0],["1",0,0]],"names":[["A",0]]}]}}
< {"check":"unreadable","id":28,"text":2}
"#;

#[test]
fn a_certificate_that_cannot_be_read_is_told(rt: HostRuntime) -> Result<(), Failure> {
    follows(rt.alloc(), UNREAD)
}
