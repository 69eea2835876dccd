//! Lists of nodes, with a logic set.

use super::Cut;
use routing_walks::CutFault;

/// The variables of these stores.
pub const VARS: &[u8] = b"proc p(data x: Node, data y: Node) logic set S: Node";

/// Twelve stores over these variables.
pub static STORES: &[(&str, Cut)] = &[
    (
        "store\nvar x null\nvar y null\nvar S {}\nend\n",
        Cut {
            fault: None,
            reached: "",
            live: 0,
            ends: "",
        },
    ),
    (
        "store\nvar x 1\nvar y null\nvar S {1}\ncell 1 Node next=2 prev=null mark=false\ncell 2 Node next=null prev=1 mark=false\nend\n",
        Cut {
            fault: None,
            reached: "12",
            live: 1,
            ends: "1",
        },
    ),
    (
        "store\nvar x 1\nvar y 3\nvar S {1 2}\ncell 1 Node next=2 prev=null mark=false\ncell 2 Node next=null prev=null mark=false\n\
            cell 3 Node next=null prev=null mark=false\nend\n",
        Cut {
            fault: Some(CutFault::Field),
            reached: "12",
            live: 2,
            ends: "12",
        },
    ),
    (
        "store\nvar x 1\nvar y null\nvar S {2}\ncell 1 Node next=null prev=1 mark=false\nend\n",
        Cut {
            fault: Some(CutFault::Field),
            reached: "1",
            live: 0,
            ends: "",
        },
    ),
    (
        "store\nvar x 1\nvar y null\nvar S {1 3}\ncell 1 Node next=3 prev=null mark=false\nend\n",
        Cut {
            fault: Some(CutFault::DanglingReference),
            reached: "1",
            live: 1,
            ends: "1",
        },
    ),
    (
        "store\nvar x 1\nvar y 1\nvar S {}\ncell 1 Node next=3 prev=null mark=false\nend\n",
        Cut {
            fault: Some(CutFault::DanglingReference),
            reached: "1",
            live: 0,
            ends: "",
        },
    ),
    (
        "store\nvar x 1\nvar y 1\nvar S {1}\ncell 1 Node next=null prev=null mark=false\nend\n",
        Cut {
            fault: Some(CutFault::Shared),
            reached: "1",
            live: 1,
            ends: "1",
        },
    ),
    (
        "store\nvar x 2\nvar y null\nvar S {1 2}\ncell 1 Node next=null prev=1 mark=false\ncell 2 Node next=null prev=2 mark=false\nend\n",
        Cut {
            fault: Some(CutFault::Leak),
            reached: "2",
            live: 2,
            ends: "1",
        },
    ),
    (
        "store\nvar x 1\nvar y null\nvar S {1 3}\ncell 1 Node next=null prev=null mark=false\nend\n",
        Cut {
            fault: None,
            reached: "1",
            live: 1,
            ends: "1",
        },
    ),
    (
        "store\nvar x 2\nvar y null\nvar S {2}\ncell 1 Node next=2 prev=null mark=false\ncell 2 Node next=null prev=1 mark=false\nend\n",
        Cut {
            fault: Some(CutFault::Shared),
            reached: "2",
            live: 1,
            ends: "",
        },
    ),
    (
        "store\nvar x 1\nvar y null\nvar S {1 3}\ncell 1 Node next=2 prev=null mark=false\ncell 2 Node next=3 prev=1 mark=false\n\
            cell 3 Node next=null prev=2 mark=false\nend\n",
        Cut {
            fault: None,
            reached: "123",
            live: 2,
            ends: "1",
        },
    ),
    (
        "store\nvar x null\nvar y null\nvar S {1 2}\ncell 1 Node next=2 prev=2 mark=false\ncell 2 Node next=1 prev=1 mark=false\nend\n",
        Cut {
            fault: Some(CutFault::Leak),
            reached: "",
            live: 2,
            ends: "12",
        },
    ),
];
