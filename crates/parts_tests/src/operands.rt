//! V2 to V5, on operands.

use crate::verify_answers::{File, Says, expect};
use sp_codefile::VRule;

const FILES: [File; 11] = [
    // operands are there
    File {
        lines: "layout 0 0 - none sizes 1 variables 2 formals\n\
        0 addr 0 2\n1 ~\n2 store\n3 addr 0 2\n4 load\n5 const 7\n6 mul\n7 write int\n8 end\n",
        rows: &[
            ("const 6", Says::Verified),
            ("tick", Says::Broken(VRule::V2, 2)),
            ("neg", Says::Broken(VRule::V2, 1)),
        ],
    },
    // the first broken rule counts before the first instruction
    File {
        lines: "layout 0 0 - none sizes variables formals\n0 neg\n1 jump ~\n2 end\n",
        rows: &[
            ("2", Says::Broken(VRule::V2, 0)),
            ("3", Says::Broken(VRule::V1, 1)),
        ],
    },
    // ways bring the same
    File {
        lines: "layout 0 0 - none sizes variables formals\n\
        0 const 1\n1 jumpf 3\n2 ~\n3 tick\n4 end\n",
        rows: &[
            ("writeln", Says::Verified),
            ("const 2", Says::Broken(VRule::V2, 3)),
        ],
    },
    // no operand is left
    File {
        lines: "layout 0 0 - none sizes variables formals\n0 ~\n1 end\n",
        rows: &[
            ("tick", Says::Verified),
            ("const 1", Says::Broken(VRule::V2, 1)),
        ],
    },
    // cells left are not passed
    File {
        lines: "layout 0 0 - none sizes 1 variables 2 formals\n\
        0 addr 0 2\n1 const 1\n2 index 1 1 1\n3 field ~\n4 load\n5 write int\n6 end\n",
        rows: &[
            ("0", Says::Verified),
            ("1", Says::Broken(VRule::V3, 4)),
            ("2", Says::Broken(VRule::V3, 3)),
        ],
    },
    // messages have one length
    File {
        lines: "layout 0 0 - none sizes 1 2 variables 2 3 formals\n\
        0 addr 0 2\n1 open\n2 addr 0 2\n3 loadc\n4 const 5\n5 send 0\n6 addr 0 2\n7 loadc\n8 addr 0 ~\n\
        9 receive 1\n10 addr 0 2\n11 loadc\n12 addr 0 3\n13 pack 2\n14 send ~\n15 end\n",
        rows: &[
            ("3/1", Says::Verified),
            ("3/0", Says::Broken(VRule::V4, 14)),
            ("2/1", Says::Broken(VRule::V4, 9)),
            ("2/2", Says::Verified),
        ],
    },
    // operands fit formals
    File {
        lines: "layout 0 0 - none sizes 1 2 variables 2 3 formals\n\
        layout 1 4 0 none sizes 2 variables 4 formals value 2\n\
        0 addr 0 3\n1 ~\n2 call 1 0\n3 end\n4 return\n",
        rows: &[
            ("pack 2", Says::Verified),
            ("pack 1", Says::Broken(VRule::V5, 2)),
            ("tick", Says::Broken(VRule::V5, 2)),
        ],
    },
    // many references at once: the lowest operand, one between, the topmost one
    File {
        lines: "layout 0 0 - none sizes 2 2 2 2 2 2 2 variables 2 3 4 5 6 7 8 formals\n\
        layout 1 9 0 none sizes 1 1 1 1 1 1 1 variables 9 10 11 12 13 14 15 \
        formals reference ~ reference 1 reference 2 reference ~ reference 1 reference 2 reference ~\n\
        0 addr 0 2\n1 addr 0 3\n2 addr 0 4\n3 addr 0 5\n4 addr 0 6\n5 addr 0 7\n6 addr 0 8\n\
        7 call 1 0\n8 end\n9 return\n",
        rows: &[
            ("2/2/2", Says::Verified),
            ("3/2/2", Says::Broken(VRule::V5, 7)),
            ("2/3/2", Says::Broken(VRule::V5, 7)),
            ("2/2/3", Says::Broken(VRule::V5, 7)),
        ],
    },
    // many values at once
    File {
        lines: "layout 0 0 - none sizes 2 variables 2 formals\n\
        layout 1 5 0 none sizes ~ 1 ~ variables 3 4 5 formals value ~ value 1 value ~\n\
        0 const 5\n1 const 6\n2 const 7\n3 call 1 0\n4 end\n5 return\n",
        rows: &[
            ("1/1/1/1", Says::Verified),
            ("2/1/2/1", Says::Broken(VRule::V5, 3)),
            ("1/2/1/2", Says::Broken(VRule::V5, 3)),
        ],
    },
    // values and references in turn, for three calls: the second one alone does not fit, or the first one too
    File {
        lines: "layout 0 0 - none sizes 2 2 1 variables 2 3 4 formals\n\
        layout 1 16 0 none sizes ~ 1 1 1 variables 5 6 7 8 formals value ~ reference ~ value 1 reference 2\n\
        0 const 1\n1 addr 0 2\n2 const 1\n3 const 1\n4 jumpf 10\n5 const 1\n6 jumpf 13\n\
        7 addr 0 3\n8 call 1 0\n9 jump 15\n10 addr 0 ~\n11 call 1 0\n12 jump 15\n\
        13 addr 0 3\n14 call 1 0\n15 end\n16 return\n",
        rows: &[
            ("1/1/2/3", Says::Verified),
            ("1/1/2/4", Says::Broken(VRule::V5, 11)),
            ("1/1/3/3", Says::Broken(VRule::V5, 8)),
            ("2/2/2/3", Says::Broken(VRule::V5, 8)),
        ],
    },
    // what answers has no reference
    File {
        lines: "layout 0 0 - none sizes 1 2 variables 2 3 formals\n\
        layout 1 5 0 answer sizes 1 1 variables 4 5 formals ~ 1\n\
        0 addr 0 2\n1 ~\n2 call 1 0\n3 write int\n4 end\n5 return\n",
        rows: &[
            ("value/load", Says::Verified),
            ("reference/tick", Says::Broken(VRule::V5, 5)),
        ],
    },
];

#[test]
fn operands(rt: HostRuntime) {
    expect(&rt, rt.alloc(), &FILES);
}
