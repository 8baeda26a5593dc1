use crate::{WordsFault, read_words};
use std::test::Fail;

// Words that are a request, with the number of its files, and words that are none, with 0.
#[test]
fn requests(rt: HostRuntime) -> Result<(), Fail> {
    let cases: [(&[&str], usize); 26] = [
        (&["claw", "translate", "a"], 1),
        (&["claw", "translate", "a", "b", "a"], 3),
        (&["claw", "translate", "-"], 1),
        (&["claw", "translate", ""], 1),
        (&["claw", "--target", "cpu", "translate", "a"], 1),
        (&["claw", "translate", "a", "--directive=none", "b"], 2),
        (&["claw", "translate", "--", "-x", "--target"], 2),
        (&["claw", "--", "translate", "a"], 1),
        (&[], 0),
        (&["claw"], 0),
        (&["claw", "translate"], 0),
        (&["translate", "a"], 0),
        (&["claw", "check", "a"], 1),
        (&["claw", "check", "a", "b"], 2),
        (&["claw", "check"], 0),
        (&["claw", "check", "a", "--target=cpu"], 0),
        (&["claw", "run", "a"], 0),
        (&["claw", "translate", "-x"], 0),
        (&["claw", "translate", "a", "--help"], 0),
        (&["claw", "-h"], 0),
        (&["claw", "translate", "a", "--target"], 0),
        (&["claw", "translate", "a", "--target", "-"], 0),
        (&["claw", "translate", "a", "--target=gpu"], 0),
        (&["claw", "translate", "a", "--targ=cpu"], 0),
        (&["claw", "translate", "a", "--directive", "openmp"], 0),
        (
            &["claw", "translate", "a", "--target=cpu", "--target=cpu"],
            0,
        ),
    ];
    for (words, files) in cases {
        match read_words(rt.alloc(), words) {
            Ok(request) => assert_eq!(rt; request.files.len(), files),
            Err(fault) => assert!(rt; fault == WordsFault::NoRequest && files == 0, "{files}"),
        }
    }
    Ok(())
}
