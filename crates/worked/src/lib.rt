// Frames worked by hand.

#![tactic(auto)]

pub mod table;

#[cfg(test)]
mod tests {
    use super::table::{ROWS, worked_frame};
    use frames::refusal::Refusal;
    use roundtrip::rebuild::rebuild;

    // Each row is read and built again as it stands; one is refused, since no PDU type has its number.
    #[test]
    fn rows_are_read(rt: HostRuntime) {
        // the row is what the table is asked by: nothing is indexed
        for row in 0..ROWS {
            let octets = worked_frame(row);
            match rebuild(octets) {
                Ok(frame) => assert!(rt; frame.as_slice() == octets),
                Err(refusal) => assert!(rt; row == 4 && refusal == Refusal::PduType),
            }
        }
    }
}
