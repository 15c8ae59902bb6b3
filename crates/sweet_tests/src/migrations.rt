//! Reports that `migrate` writes in the second form, or refuses.

use crate::tables::hold;
use std::test::Fail;

// A report's name, and what is changed.
const FORMS: &str = r#"migrate r
r report $0
=> file r report $0 | $1 | $2

// a report of the first form differs in its first line alone
ten turns, form 1 | facts 1; | facts 2;
// one of the second form stays
ten turns, form 2
a division
apart


migrate r
r text $0

// reports that are cut or spelled otherwise
 => 2 fault 60 syntax 1 1;
facts 1; => 2 fault 60 syntax 2 1;
facts 3; => 2 fault 60 syntax 1 7;"#;

#[test]
fn a_report_differs_in_its_first_line_alone_or_is_refused_where_it_departs(
    rt: HostRuntime,
) -> Result<(), Fail> {
    hold(rt.alloc(), FORMS)
}
