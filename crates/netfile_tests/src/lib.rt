// The network file on examples: one that is loaded and written back, and files with something wrong.
#![tactic(auto)]

#[cfg(test)]
mod tests {
    use netfile::*;
    use network::*;
    use std::process::Abort;
    use std::test::Fail;

    // A file of three members and five claims, with a byte behind it. The Member records begin at bytes
    // 2, 10 and 18, the Claim records at 26, 33, 40, 47 and 54, the End record at 61.
    const FILE: [u8; 63] = *b"\
        \x01\x03\
        \x02\x00\x00\x00\x00\x00\x00\x02\
        \x02\x01\x01\x00\x00\x00\x00\x00\
        \x02\x02\x02\x00\x00\x00\x00\x01\
        \x03\x00\x01\x00\x00\x00\x04\
        \x03\x00\x02\x00\x00\x00\x02\
        \x03\x01\x00\x00\x00\x00\x01\
        \x03\x01\x02\x00\x00\x00\x05\
        \x03\x02\x00\x00\x00\x00\x05\
        \x04\
        \x09";

    fn of_file(cause: Cause, byte: usize) -> Fault {
        Fault::of_nobody(Layer::File, cause).at_byte(byte)
    }

    fn of_draft(cause: Cause, byte: usize, debtor: u8, creditor: u8) -> Fault {
        Fault::of_pair(Layer::Draft, cause, debtor, creditor).at_byte(byte)
    }

    fn change(file: &mut [u8], changes: &[(usize, u8)]) {
        for (place, value) in changes {
            if let Some(byte) = file.get_mut(*place) {
                *byte = *value;
            }
        }
    }

    // Loads the first bytes of the file, some of them changed, into a draft of three members.
    fn refused(
        rt: &impl Abort,
        changes: &[(usize, u8)],
        length: usize,
        fault: Fault,
    ) -> Result<(), Fail> {
        let mut file = FILE;
        change(&mut file, changes);
        assert!(rt; length <= 63);
        let mut draft = Draft::new(MemberCount::new(3)?);
        assert_eq!(rt; load(&mut draft, &file[..length]), Err(fault));
        Ok(())
    }

    #[test]
    fn where_a_file_ends(rt: HostRuntime) -> Result<(), Fail> {
        refused(&rt, &[], 0, of_file(Cause::EndOfFile, 0))?;
        refused(&rt, &[], 1, of_file(Cause::EndOfFile, 0))?;
        refused(&rt, &[], 2, of_file(Cause::EndOfFile, 2))?;
        refused(&rt, &[], 9, of_file(Cause::EndOfFile, 2))?;
        refused(&rt, &[], 32, of_file(Cause::EndOfFile, 26))?;
        refused(&rt, &[], 61, of_file(Cause::EndOfFile, 61))?;
        refused(&rt, &[(61, 3)], 62, of_file(Cause::EndOfFile, 61))?;
        refused(&rt, &[], 63, of_file(Cause::NotDue, 62))?;
        refused(&rt, &[(62, 4)], 63, of_file(Cause::NotDue, 62))
    }

    #[test]
    fn what_is_due(rt: HostRuntime) -> Result<(), Fail> {
        refused(&rt, &[(0, 0)], 1, of_file(Cause::UnknownKind, 0))?;
        refused(&rt, &[(26, 5)], 62, of_file(Cause::UnknownKind, 26))?;
        // a known kind that is not due, with its body cut off
        refused(&rt, &[(0, 3)], 1, of_file(Cause::NotDue, 0))?;
        refused(&rt, &[(2, 3)], 62, of_file(Cause::NotDue, 2))?;
        refused(&rt, &[(26, 2)], 62, of_file(Cause::NotDue, 26))?;
        // a number of members that is not the draft's, also one that no draft has
        refused(&rt, &[(1, 2)], 62, of_file(Cause::NotDue, 0))?;
        refused(&rt, &[(1, 0)], 62, of_file(Cause::NotDue, 0))?;
        refused(&rt, &[(1, 33)], 62, of_file(Cause::NotDue, 0))?;
        // another member's number, before that member's class
        refused(&rt, &[(11, 2), (13, 8)], 62, of_file(Cause::NotDue, 10))
    }

    #[test]
    fn entries(rt: HostRuntime) -> Result<(), Fail> {
        refused(
            &rt,
            &[(13, 8), (14, 1)],
            62,
            of_draft(Cause::ClassTooHigh, 10, 1, NOBODY),
        )?;
        refused(
            &rt,
            &[(14, 1)],
            62,
            of_draft(Cause::EndowmentTooLarge, 10, 1, NOBODY),
        )?;
        refused(&rt, &[(27, 3)], 62, of_draft(Cause::NoSuchMember, 26, 3, 1))?;
        refused(
            &rt,
            &[(28, 200)],
            62,
            of_draft(Cause::NoSuchMember, 26, 0, 200),
        )?;
        // the claim's checks by the draft come before its units and its order
        refused(
            &rt,
            &[(28, 0), (32, 0)],
            62,
            of_draft(Cause::ClaimOnItself, 26, 0, 0),
        )?;
        refused(
            &rt,
            &[(30, 1)],
            62,
            of_draft(Cause::ClaimTooLarge, 26, 0, 1),
        )?;
        refused(&rt, &[(32, 0)], 62, of_file(Cause::ClaimOrder, 26))?;
        // the second claim again, and the first one behind it
        refused(&rt, &[(41, 0), (42, 2)], 62, of_file(Cause::ClaimOrder, 40))?;
        refused(&rt, &[(41, 0), (42, 1)], 62, of_file(Cause::ClaimOrder, 40))
    }

    #[test]
    fn there_and_back(rt: HostRuntime) -> Result<(), Fail> {
        let mut draft = Draft::new(count(&FILE)?);
        load(&mut draft, &FILE[..62])?;
        assert_eq!(rt; draft.figures().claims[1][2], 5);
        assert_eq!(rt; file_length(draft.figures()), 62);
        let mut buffer = [7; 64];
        assert_eq!(rt; write(&draft, &mut buffer)?, 62);
        assert_eq!(rt; &buffer[..62], &FILE[..62]);
        assert!(rt; buffer[62] == 7 && buffer[63] == 7);
        let mut copied = Draft::new(draft.count());
        assert_eq!(rt; copy(&draft, &mut copied, &mut buffer)?, 62);
        assert_eq!(rt; copied.figures().claims[1][2], 5);
        assert_eq!(rt; rewrite(&FILE[..62], &mut buffer)?, 62);
        assert_eq!(rt;
            rewrite(&FILE[..62], &mut buffer[..61]),
            Err(of_file(Cause::ShortBuffer, 0))
        );
        Ok(())
    }

    #[test]
    fn counts(rt: HostRuntime) -> Result<(), Fail> {
        assert_eq!(rt; count(&[1, 32])?.get(), 32);
        let no_count = Fault::of_nobody(Layer::Draft, Cause::MemberCount);
        assert_eq!(rt; count(&[1, 0]), Err(no_count));
        assert_eq!(rt; count(&[1, 33]), Err(no_count));
        assert_eq!(rt; count(&[1]), Err(of_file(Cause::EndOfFile, 0)));
        assert_eq!(rt; count(&[]), Err(of_file(Cause::EndOfFile, 0)));
        assert_eq!(rt; count(&[4]), Err(of_file(Cause::NotDue, 0)));
        assert_eq!(rt; count(&[0, 3]), Err(of_file(Cause::UnknownKind, 0)));
        Ok(())
    }

    #[test]
    fn records(rt: HostRuntime) -> Result<(), Fail> {
        assert_eq!(rt;
            record_at(&FILE, 47),
            Ok(Record::Claim(&[1, 2, 0, 0, 0, 5]))
        );
        assert_eq!(rt; rest_after(&FILE, 47)?.len(), 9);
        assert_eq!(rt; rest_after(&FILE[..62], 61)?.len(), 0);
        assert_eq!(rt; rest_after(&FILE, 62), Err(of_file(Cause::UnknownKind, 62)));
        assert_eq!(rt;
            rest_after(&FILE[..20], 18),
            Err(of_file(Cause::EndOfFile, 18))
        );
        assert_eq!(rt; rest_after(&FILE, 63), Err(of_file(Cause::EndOfFile, 63)));
        assert_eq!(rt;
            rest_after(&FILE, usize::MAX),
            Err(of_file(Cause::EndOfFile, usize::MAX))
        );
        Ok(())
    }
}
