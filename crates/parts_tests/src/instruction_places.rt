//! V1 of where instructions stand: whose code each one is, what it may not end, and who names a table.

use crate::verify_answers::{File, Says, expect};
use sp_codefile::VRule;

const FILES: [File; 4] = [
    // the program ends as it may
    File {
        lines: "layout 0 0 - none sizes variables formals\n0 ~\n",
        rows: &[
            ("end", Says::Verified),
            ("return", Says::Broken(VRule::V1, 0)),
            ("tick", Says::Broken(VRule::V1, 0)),
        ],
    },
    // a procedure ends as it may
    File {
        lines: "layout 0 0 - none sizes variables formals\n\
        layout 1 ~ 0 none sizes variables formals\n\
        0 call 1 0\n1 end\n2 tick\n3 ~\n",
        rows: &[
            ("2/return", Says::Verified),
            ("2/end", Says::Broken(VRule::V1, 3)),
            ("2/tick", Says::Broken(VRule::V1, 3)),
            ("1/return", Says::Broken(VRule::V1, 1)),
        ],
    },
    // a child stands by itself
    File {
        lines: "layout 0 0 - none sizes variables formals\n\
        0 fork 0\n1 end\n2 tick\n3 ~\n\
        table 0 child 0 entry ~ moves shares\n",
        rows: &[
            ("end/2", Says::Verified),
            ("end/3", Says::Verified),
            ("return/2", Says::Broken(VRule::V1, 3)),
            ("end/1", Says::Broken(VRule::V1, 1)),
            ("end/0", Says::Broken(VRule::V1, 0)),
        ],
    },
    // one instruction of an area names a table
    File {
        lines: "layout 0 0 - none sizes variables formals\n\
        0 ~\n1 ~\n2 end\n3 end\n\
        table 0 child 0 entry 3 moves shares\n",
        rows: &[
            ("tick/fork 0", Says::Verified),
            ("tick/tick", Says::Broken(VRule::V1, 3)),
            ("fork 0/fork 0", Says::Broken(VRule::V1, 3)),
            ("end/fork 0", Says::Broken(VRule::V1, 3)),
        ],
    },
];

#[test]
fn where_instructions_stand(rt: HostRuntime) {
    expect(&rt, rt.alloc(), &FILES);
}
