//! V6 to V8: what children are handed, variables that parameters stand for, and what blocks with a result may do. Where
//! a child or a block breaks a rule as a whole, its first instruction is named.

use crate::verify_answers::{File, Says, expect};
use sp_codefile::VRule;

const FILES: [File; 11] = [
    // children write what moved to them
    File {
        lines: "layout 0 0 - none sizes 1 1 variables 2 3 formals\n\
        0 fork 0\n1 jump 10\n2 addr 0 2\n3 const 1\n4 store\n5 end\n6 addr 0 3\n7 const 2\n8 store\n9 end\n\
        10 end\n\
        table 0 child 0 entry 2 moves~ shares~\n\
        table 0 child 1 entry 6 moves~ shares~\n",
        rows: &[
            (" 2// 3/", Says::Verified),
            ("/ 2/ 3/", Says::Broken(VRule::V6, 2)),
            (" 2/// 3", Says::Broken(VRule::V6, 6)),
            (" 2// 3/ 2", Says::Broken(VRule::V6, 6)),
            // both do more than they are handed; the first one is handed a variable twice besides
            ("////", Says::Broken(VRule::V6, 2)),
            (" 2 2/", Says::Broken(VRule::V6, 2)),
            // the first one is handed a variable twice, the second one does more
            (" 2 2///", Says::Broken(VRule::V6, 2)),
        ],
    },
    // the later child of a table comes first; each calls a block that stores
    File {
        lines: "layout 0 0 - none sizes 1 1 variables 2 3 formals\n\
        layout 1 8 0 none sizes variables formals\n\
        layout 2 13 0 none sizes variables formals\n\
        0 fork 0\n1 jump 6\n2 call 1 0\n3 end\n4 call 2 0\n5 end\n6 call 1 0\n7 end\n\
        8 addr 1 2\n9 const 1\n10 store\n11 call 2 1\n12 return\n\
        13 addr 1 3\n14 const 2\n15 store\n16 return\n\
        table 0 child 0 entry 4 moves~ shares~\n\
        table 0 child 1 entry 2 moves~ shares~\n",
        rows: &[
            ("////", Says::Broken(VRule::V6, 2)),
            (" 3// 2/", Says::Broken(VRule::V6, 2)),
            ("// 2 3/", Says::Broken(VRule::V6, 4)),
            (" 3// 2 3/", Says::Broken(VRule::V6, 2)),
            (" 2//", Says::Broken(VRule::V6, 2)),
        ],
    },
    // what a child hands to a block by reference, and that stores, is handed to the child; so what it loads
    File {
        lines: "layout 0 0 - none sizes 1 1 variables 2 3 formals\n\
        layout 1 6 0 none sizes 1 variables 4 formals reference 1\n\
        0 fork 0\n1 jump 5\n2 addr 0 2\n3 call 1 0\n4 end\n5 end\n\
        6 deref 0 0\n7 addr 1 3\n8 load\n9 store\n10 return\n\
        table 0 child 0 entry 2 moves~ shares~\n",
        rows: &[
            (" 2/ 3", Says::Verified),
            (" 2 3/", Says::Verified),
            (" 2/", Says::Broken(VRule::V6, 2)),
            (" 3/ 2", Says::Broken(VRule::V6, 2)),
            ("/ 2 3", Says::Broken(VRule::V6, 2)),
        ],
    },
    // two references stand for two variables
    File {
        lines: "layout 0 0 - none sizes 1 1 variables 2 3 formals\n\
        layout 1 4 0 none sizes 1 1 variables 4 5 formals reference 1 reference 1\n\
        0 addr 0 2\n1 addr 0 ~\n2 call 1 0\n3 end\n4 deref 0 0\n5 const 1\n6 store\n7 deref 0 1\n8 const 2\n\
        9 store\n10 return\n",
        rows: &[("3", Says::Verified), ("2", Says::Broken(VRule::V7, 2))],
    },
    // a block does not use what its reference stands for
    File {
        lines: "layout 0 0 - none sizes 1 1 variables 2 3 formals\n\
        layout 1 3 0 none sizes 1 variables 4 formals reference 1\n\
        0 addr 0 2\n1 call 1 0\n2 end\n3 addr 1 ~\n4 const 1\n5 store\n6 return\n",
        rows: &[("3", Says::Verified), ("2", Says::Broken(VRule::V7, 1))],
    },
    // nor does a block that it calls, whichever call passes the variable
    File {
        lines: "layout 0 0 - none sizes 1 1 1 variables 2 3 4 formals\n\
        layout 1 5 0 none sizes 1 variables 5 formals reference 1\n\
        layout 2 7 0 none sizes variables formals\n\
        0 addr 0 2\n1 call 1 0\n2 addr 0 3\n3 call 1 0\n4 end\n5 call 2 1\n6 return\n\
        7 addr 1 ~\n8 const 1\n9 store\n10 return\n",
        rows: &[
            ("4", Says::Verified),
            ("2", Says::Broken(VRule::V7, 1)),
            ("3", Says::Broken(VRule::V7, 3)),
        ],
    },
    // the same for a load
    File {
        lines: "layout 0 0 - none sizes 1 1 variables 2 3 formals\n\
        layout 1 3 0 none sizes 1 variables 4 formals reference 1\n\
        layout 2 5 0 none sizes variables formals\n\
        0 addr 0 2\n1 call 1 0\n2 end\n3 call 2 1\n4 return\n5 addr 1 ~\n6 load\n7 write int\n8 return\n",
        rows: &[("3", Says::Verified), ("2", Says::Broken(VRule::V7, 1))],
    },
    // the same for a store by a block to which it passes the variable by reference too
    File {
        lines: "layout 0 0 - none sizes 1 1 variables 2 3 formals\n\
        layout 1 3 0 none sizes 1 variables 4 formals reference 1\n\
        layout 2 6 0 none sizes 1 variables 5 formals reference 1\n\
        0 addr 0 ~\n1 call 1 0\n2 end\n3 addr 1 3\n4 call 2 1\n5 return\n\
        6 deref 0 0\n7 const 1\n8 store\n9 return\n",
        rows: &[("2", Says::Verified), ("3", Says::Broken(VRule::V7, 1))],
    },
    // a block inside itself keeps to its own
    File {
        lines: "layout 0 0 - none sizes 1 variables 2 formals\n\
        layout 1 2 0 none sizes 1 variables 3 formals\n\
        0 call 1 0\n1 end\n2 addr ~\n3 const 1\n4 store\n5 call 1 1\n6 return\n",
        rows: &[("0 0", Says::Verified), ("1 2", Says::Broken(VRule::V7, 2))],
    },
    // a block with a result stores its own
    File {
        lines: "layout 0 0 - none sizes 1 variables 2 formals\n\
        layout 1 4 0 answer sizes 1 1 variables 3 4 formals\n\
        0 addr 0 2\n1 call 1 0\n2 store\n3 end\n4 addr ~\n5 const 1\n6 store\n7 addr 0 0\n8 const 2\n\
        9 store\n10 return\n",
        rows: &[("0 1", Says::Verified), ("1 2", Says::Broken(VRule::V8, 4))],
    },
    // a block with a result stops at nothing
    File {
        lines: "layout 0 0 - none sizes 1 variables 2 formals\n\
        layout 1 4 0 answer sizes 1 1 variables 3 4 formals\n\
        0 addr 0 2\n1 call 1 0\n2 store\n3 end\n4 addr 0 1\n5 ~\n6 ~\n7 addr 0 0\n8 const 2\n9 store\n\
        10 return\n",
        rows: &[
            ("const 1/store", Says::Verified),
            ("open/tick", Says::Broken(VRule::V8, 4)),
        ],
    },
];

#[test]
fn what_is_stored_and_loaded(rt: HostRuntime) {
    expect(&rt, rt.alloc(), &FILES);
}
