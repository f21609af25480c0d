// What is reported of whole inputs, on examples.
#![tactic(auto)]

#[cfg(test)]
mod tests {
    use report::clear;
    use std::alloc::Global;
    use std::process::Abort;
    use std::test::Fail;

    // The worked network.
    const WORKED: [u8; 62] = [
        1, 3, 2, 0, 0, 0, 0, 0, 0, 2, 2, 1, 1, 0, 0, 0, 0, 0, 2, 2, 2, 0, 0, 0, 0, 1, 3, 0, 1, 0,
        0, 0, 4, 3, 0, 2, 0, 0, 0, 2, 3, 1, 0, 0, 0, 0, 1, 3, 1, 2, 0, 0, 0, 5, 3, 2, 0, 0, 0, 0,
        5, 4,
    ];

    fn reports(
        rt: &impl Abort,
        heap: Global,
        input: &[u8],
        cleared: bool,
        text: &str,
    ) -> Result<(), Fail> {
        let report = clear(heap, input)?;
        assert!(rt; report.cleared == cleared);
        assert!(rt; report.text.as_str() == text);
        Ok(())
    }

    #[test]
    fn worked_network(rt: HostRuntime) -> Result<(), Fail> {
        let text =
            "paid 0 1 4\npaid 0 2 2\npaid 1 0 1\npaid 1 2 3\npaid 2 0 5\nequity 0 2\nequity 1 0\nequity 2 1\ndefault 1\nrounds 3 15 0\n";
        reports(&rt, rt.alloc(), &WORKED, true, text)
    }

    // Two members with nothing that claim 5 of each other, although 5 and 5 would also clear.
    #[test]
    fn empty_circle(rt: HostRuntime) -> Result<(), Fail> {
        let file = [
            1, 2, 2, 0, 0, 0, 0, 0, 0, 0, 2, 1, 0, 0, 0, 0, 0, 0, 3, 0, 1, 0, 0, 0, 5, 3, 1, 0, 0,
            0, 0, 5, 4,
        ];
        let text =
            "paid 0 1 0\npaid 1 0 0\nequity 0 0\nequity 1 0\ndefault 0\ndefault 1\nrounds 0 0 0\n";
        reports(&rt, rt.alloc(), &file, true, text)
    }

    #[test]
    fn longest_input(rt: HostRuntime) -> Result<(), Fail> {
        let heap = rt.alloc();
        let mut input = vec![in heap; 0u8; 65_536]?;
        reports(
            &rt,
            heap,
            input.as_slice(),
            false,
            "fault 13 file 0 255 255\n",
        )?;
        input.push(0)?;
        reports(&rt, heap, input.as_slice(), false, "too long\n")
    }

    // A fault of each layer that a file can meet.
    #[test]
    fn refused_files(rt: HostRuntime) -> Result<(), Fail> {
        let heap = rt.alloc();
        reports(&rt, heap, &[], false, "fault 12 file 0 255 255\n")?;
        reports(&rt, heap, &[1, 33], false, "fault 1 draft 0 255 255\n")?;
        reports(
            &rt,
            heap,
            &[1, 1, 2, 0, 0, 8, 0, 0, 0, 0, 4],
            false,
            "fault 3 draft 2 0 255\n",
        )?;
        reports(
            &rt,
            heap,
            &WORKED[0..61],
            false,
            "fault 12 file 61 255 255\n",
        )
    }
}
