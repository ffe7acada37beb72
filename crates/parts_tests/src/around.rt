//! V1 by what is around instructions: levels, variables, homes, and what forks hand on.

use crate::verify_answers::{File, Says, expect};
use sp_codefile::VRule;

const FILES: [File; 9] = [
    // variables are named as they may
    File {
        lines: "layout 0 0 - none sizes 1 variables 2 formals\n0 ~\n1 const 6\n2 store\n3 end\n",
        rows: &[
            ("addr 0 2", Says::Verified),
            ("addr 0 3", Says::Broken(VRule::V1, 0)),
            ("addr 1 2", Says::Broken(VRule::V1, 0)),
            ("addr 0 1", Says::Broken(VRule::V1, 0)),
            ("deref 0 2", Says::Broken(VRule::V1, 0)),
        ],
    },
    // loops have variables
    File {
        lines: "layout 0 0 - none sizes 1 variables 2 formals\n\
        0 const 1\n1 const 3\n2 forup ~ 5\n3 tick\n4 ~ 3\n5 end\n",
        rows: &[
            ("2/nextup 2", Says::Verified),
            ("1/nextup 2", Says::Broken(VRule::V1, 2)),
            ("2/nextdown 2", Says::Verified),
            ("2/nextdown 3", Says::Broken(VRule::V1, 4)),
        ],
    },
    // calls are at their level
    File {
        lines: "layout 0 0 - none sizes 1 variables 2 formals\n\
        layout 1 3 0 none sizes 1 variables 3 formals value 1\n\
        0 const 5\n1 call 1 ~\n2 end\n3 const 4\n4 call 1 ~\n5 return\n",
        rows: &[
            ("0/1", Says::Verified),
            ("1/1", Says::Broken(VRule::V1, 1)),
            ("0/0", Says::Broken(VRule::V1, 4)),
        ],
    },
    // a procedure names its own and those around
    File {
        lines: "layout 0 0 - none sizes 1 variables 2 formals\n\
        layout 1 3 0 none sizes 1 variables 3 formals value 1\n\
        0 const 5\n1 call 1 0\n2 end\n3 addr ~\n4 const 2\n5 store\n6 return\n",
        rows: &[
            ("0 0", Says::Verified),
            ("0 1", Says::Broken(VRule::V1, 3)),
            ("1 2", Says::Verified),
            ("2 0", Says::Broken(VRule::V1, 3)),
        ],
    },
    // parents lead to the program
    File {
        lines: "layout 0 0 - none sizes variables formals\n\
        layout 1 1 ~ none sizes variables formals\n\
        0 end\n1 return\n",
        rows: &[
            ("0", Says::Verified),
            ("-", Says::Broken(VRule::V1, 1)),
            ("1", Says::Broken(VRule::V1, 1)),
            ("7", Says::Broken(VRule::V1, 1)),
        ],
    },
    // the program is outermost, whatever parent it has
    File {
        lines: "layout 0 3 ~ none sizes 1 variables 2 formals\n\
        layout 1 0 0 none sizes variables formals\n\
        0 addr 1 2\n1 load\n2 return\n3 end\n",
        rows: &[
            ("-", Says::Broken(VRule::V2, 2)),
            ("1", Says::Broken(VRule::V1, 3)),
            ("7", Says::Broken(VRule::V1, 3)),
        ],
    },
    // blocks have one layout
    File {
        lines: "layout 0 0 - none sizes variables formals\n\
        layout ~ 1 0 none sizes variables formals\n\
        0 end\n1 return\n",
        rows: &[("1", Says::Verified), ("0", Says::Broken(VRule::V1, 0))],
    },
    // a child names its index and those around
    File {
        lines: "layout 0 0 - none sizes 1 variables 2 formals\n\
        0 const 1\n1 const 2\n2 forall 0\n3 end\n4 addr ~\n5 load\n6 assume\n7 end\n\
        table 0 child 0 entry 4 moves shares 2 index 9\n",
        rows: &[
            ("0 0", Says::Verified),
            ("0 1", Says::Broken(VRule::V1, 4)),
            ("1 2", Says::Verified),
            ("2 2", Says::Broken(VRule::V1, 4)),
        ],
    },
    // forks hand on what is around
    File {
        lines: "layout 0 0 - none sizes 1 variables 2 formals\n\
        0 const 1\n1 const 2\n2 forall 0\n3 end\n4 fork 1\n5 end\n6 end\n\
        table 0 child 0 entry 4 moves shares ~ index 9\n\
        table 1 child 0 entry 6 moves shares ~\n",
        rows: &[
            ("2/9", Says::Verified),
            ("2/2", Says::Verified),
            ("9/2", Says::Broken(VRule::V1, 4)),
            ("2/8", Says::Broken(VRule::V1, 6)),
        ],
    },
];

#[test]
fn what_is_around_instructions(rt: HostRuntime) {
    expect(&rt, rt.alloc(), &FILES);
}
