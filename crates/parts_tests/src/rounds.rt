//! V9: ways back with no tick and no call.

use crate::verify_answers::{File, Says, expect};
use sp_codefile::VRule;

const FILES: [File; 6] = [
    // a tick or a call breaks a loop
    File {
        lines: "layout 0 0 - none sizes variables formals\n\
        layout 1 5 0 none sizes variables formals\n\
        0 writeln\n1 ~\n2 const 1\n3 jumpf 1\n4 end\n5 return\n",
        rows: &[
            ("tick", Says::Verified),
            ("call 1 0", Says::Verified),
            ("writeln", Says::Broken(VRule::V9, 1)),
        ],
    },
    // an endless loop may tick
    File {
        lines: "layout 0 0 - none sizes variables formals\n0 ~\n1 jump 0\n2 end\n",
        rows: &[
            ("tick", Says::Verified),
            ("writeln", Says::Broken(VRule::V9, 0)),
        ],
    },
    // a loop of a procedure counts
    // The first instruction of the loop is not that of the procedure.
    File {
        lines: "layout 0 0 - none sizes variables formals\n\
        layout 1 2 0 none sizes variables formals\n\
        0 end\n1 jump ~\n2 jump 1\n3 return\n",
        rows: &[("3", Says::Verified), ("2", Says::Broken(VRule::V9, 1))],
    },
    // of nested loops the first instruction counts
    File {
        lines: "layout 0 0 - none sizes variables formals\n\
        0 ~\n1 ~\n2 const 1\n3 jumpf 1\n4 const 1\n5 jumpf 0\n6 end\n",
        rows: &[
            ("writeln/writeln", Says::Broken(VRule::V9, 0)),
            ("writeln/tick", Says::Verified),
            ("tick/writeln", Says::Broken(VRule::V9, 1)),
            ("tick/tick", Says::Verified),
        ],
    },
    // a loop that nothing reaches does not count
    File {
        lines: "layout 0 0 - none sizes variables formals\n0 end\n1 jump ~\n2 end\n",
        rows: &[("2", Says::Verified), ("1", Says::Verified)],
    },
    // a jump to itself comes back
    File {
        lines: "layout 0 0 - none sizes variables formals\n\
        layout 1 2 0 none sizes variables formals\n\
        0 jump ~\n1 end\n2 jump ~\n3 return\n",
        rows: &[
            ("1/3", Says::Verified),
            ("0/3", Says::Broken(VRule::V9, 0)),
            // (in a procedure that nobody calls)
            ("1/2", Says::Broken(VRule::V9, 2)),
        ],
    },
];

#[test]
fn ways_back(rt: HostRuntime) {
    expect(&rt, rt.alloc(), &FILES);
}
