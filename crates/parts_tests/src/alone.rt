//! V1 of instructions, layouts and tables in themselves.

use crate::verify_answers::{File, Says, expect};
use sp_codefile::VRule;

const FILES: [File; 7] = [
    // jumps lead somewhere
    File {
        lines: "layout 0 0 - none sizes variables formals\n0 jump ~\n1 end\n",
        rows: &[("1", Says::Verified), ("2", Says::Broken(VRule::V1, 0))],
    },
    // names lead somewhere
    File {
        lines: "layout 0 0 - none sizes variables formals\n\
        layout 1 2 0 none sizes variables formals\n\
        text 6f6b\n\
        0 ~\n1 end\n2 return\n",
        rows: &[
            ("call 1 0", Says::Verified),
            ("call 0 0", Says::Broken(VRule::V1, 0)),
            ("call 2 0", Says::Broken(VRule::V1, 0)),
            ("write text 0", Says::Verified),
            ("write text 1", Says::Broken(VRule::V1, 0)),
            ("fork 0", Says::Broken(VRule::V1, 0)),
        ],
    },
    // layouts fit
    File {
        lines: "layout 0 0 - none sizes 2 variables 2 formals\n\
        layout 1 ~ 0 none sizes ~ variables 3 formals value 2\n\
        0 addr 0 2\n1 pack 2\n2 call 1 0\n3 end\n4 return\n",
        rows: &[
            ("4/2", Says::Verified),
            ("5/2", Says::Broken(VRule::V1, 5)),
            ("4/1", Says::Broken(VRule::V1, 4)),
        ],
    },
    // the program stands alone
    File {
        lines: "layout 0 0 ~ none sizes variables formals\n0 end\n",
        rows: &[("-", Says::Verified), ("0", Says::Broken(VRule::V1, 0))],
    },
    // forks fit
    File {
        lines: "layout 0 0 - none sizes variables formals\n\
        0 fork 0\n1 end\n2 end\n\
        table 0 child 0 entry ~ moves shares~\n",
        rows: &[
            ("2", Says::Verified),
            ("2/ index 3", Says::Broken(VRule::V1, 2)),
            ("3", Says::Broken(VRule::V1, 3)),
        ],
    },
    // foralls fit
    File {
        lines: "layout 0 0 - none sizes variables formals\n\
        0 const 1\n1 const 2\n2 forall 0\n3 end\n4 end\n\
        table 0 child 0 entry 4 moves shares~\n",
        rows: &[
            (" index 3", Says::Verified),
            ("", Says::Broken(VRule::V1, 4)),
        ],
    },
    // a variable is declared once
    File {
        lines: "layout 0 0 - none sizes 1 variables 2 formals\n\
        layout 1 6 0 none sizes 1 variables ~ formals value 1\n\
        0 const 5\n1 call 1 0\n2 const 1\n3 const 2\n4 forall 0\n5 end\n6 return\n7 end\n\
        table 0 child 0 entry 7 moves shares index ~\n",
        rows: &[
            ("3/4", Says::Verified),
            ("2/4", Says::Broken(VRule::V1, 6)),
            ("3/3", Says::Broken(VRule::V1, 7)),
            ("3/2", Says::Broken(VRule::V1, 7)),
            // (the input and the output)
            ("1/4", Says::Broken(VRule::V1, 6)),
            ("3/0", Says::Broken(VRule::V1, 7)),
        ],
    },
];

#[test]
fn instructions_layouts_and_tables_in_themselves(rt: HostRuntime) {
    expect(&rt, rt.alloc(), &FILES);
}
