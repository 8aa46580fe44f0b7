//! Derivations written in format 2: each compound step that stands twice is a part.
use brisk_derivtext::{read, write2};
use std::test::Fail;

const ROWS: [(&str, &str); 4] = [
    (
        "brisk derivation 1\nfor Ws by H drop\npass H Ws T\nclose\nfor Ws by H drop\npass H Ws T\nclose\nend\n",
        "brisk derivation 2\npart p1\nfor Ws by H drop\npass H Ws T\nclose\nendpart\nuse p1\nuse p1\nend\n",
    ),
    // what is written is written again
    (
        "brisk derivation 2\npart p1\nfor Ws by H drop\npass H Ws T\nclose\nendpart\nuse p1\nuse p1\nend\n",
        "brisk derivation 2\npart p1\nfor Ws by H drop\npass H Ws T\nclose\nendpart\nuse p1\nuse p1\nend\n",
    ),
    // steps by basic rules are no parts
    (
        "brisk derivation 1\nassign A\nassign A\nend\n",
        "brisk derivation 2\nassign A\nassign A\nend\n",
    ),
    // a part inside a part comes first
    (
        "brisk derivation 1\nwhile A drop\nrepeat Ws drop\nclose\nclose\nwhile A drop\nrepeat Ws drop\nclose\nclose\nend\n",
        "brisk derivation 2\npart p1\nrepeat Ws drop\nclose\nendpart\npart p2\nwhile A drop\nuse p1\nclose\nendpart\nuse p2\nuse p2\nend\n",
    ),
];

#[test]
fn steps_that_stand_twice_are_parts(rt: HostRuntime) -> Result<(), Fail> {
    let alloc = rt.alloc();
    for (text, shared) in ROWS {
        let Ok(steps) = read(alloc, text.as_bytes()) else {
            panic!(rt; "no derivation: {text}");
        };
        assert_eq!(rt;
            write2(alloc, &steps)?.as_slice(),
            shared.as_bytes(),
            "of {text}"
        );
    }
    Ok(())
}
