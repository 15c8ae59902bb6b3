//! The exit code of each status.

use sweet_cli::Status;

#[test]
fn each_status_has_its_code(rt: HostRuntime) {
    let cases = [
        (Status::Done, 0),
        (Status::Usage, 1),
        (Status::Source, 2),
        (Status::Unbounded, 3),
        (Status::No, 4),
        (Status::ReadFailed, 5),
        (Status::WriteFailed, 6),
        (Status::Memory, 7),
    ];
    for (status, code) in cases {
        assert_eq!(rt; status.code(), code, "{status:?}");
    }
}
