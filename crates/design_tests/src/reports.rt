//! A report in plain words.
use report::run::{Form, answer_design};
use std::test::Fail;

const DESIGN: &str = "layout dense 2 3
layout diagonal 12
layout sparse 2 2 2 : 0 0 1 , 1 1 0   # three axes
layout dense
layout dense 17
layout dense 1 3
find 5 4 1
number 5 4 1
find 0 -1 0
place 2 1
place 3 0
place 7 0
";

const REPORT: &str = "layout 0 (line 1): dense, 2 x 3, 6 places
    0 1 2
    3 4 5
layout 1 (line 2): diagonal, 12, 12 places
     0  1  2  3  4  5  6  7  8  9 10 11
layout 2 (line 3): sparse, 2 x 2 x 2, 2 places
    place 0: (0, 0, 1)
    place 1: (1, 1, 0)
layout 3 (line 4): dense, a scalar, 1 place
    0
layout 4 (line 5): dense, 17, 17 places
    too large to draw
layout 5 (line 6): dense, 1 x 3, 3 places
    0 1 2
line 7: wide lookup of (4, 1) in layout 5: place 1
line 8: strict lookup of (4, 1) in layout 5: no place
line 9: wide lookup of (-1, 0) in layout 0: no place
line 10: place 1 of layout 2: (1, 1, 0)
line 11: place 0 of layout 3: ()
line 12: place 0 of layout 7: refused (1, stage, place 0): there is no layout 7
";

#[test]
fn report_in_words(rt: HostRuntime) -> Result<(), Fail> {
    match answer_design(rt.alloc(), DESIGN, Form::Report) {
        Ok(said) => {
            assert_eq!(rt; said.as_str(), REPORT);
            Ok(())
        },
        Err(_) => Err(Fail::new("the design is refused")),
    }
}
