//! The three ledgers of the ward of two patients.

use crate::tests::{nurses, roomdays, theatres};
use ih_fixtures::on_two_patients;

#[test]
fn patients_come_and_leave(rt: HostRuntime) {
    let alloc = rt.alloc();
    assert!(rt; on_two_patients(alloc, |inst| roomdays::hold(alloc, inst)));
    assert!(rt; on_two_patients(alloc, |inst| theatres::hold(alloc, inst)));
    assert!(rt; on_two_patients(alloc, |inst| nurses::hold(alloc, inst)));
}
