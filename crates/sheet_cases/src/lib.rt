// Tests of measured senders: the worked examples, and both edges of every limit.
#![tactic(auto)]

#[cfg(test)]
mod tests {
    use bus::frame::longest;
    use bus::refusal::Refusal;
    use bus::traffic::Traffic;
    use engine::bound::bound;
    use sheet::sender::Sender;
    use sheet::sheet::Sheet;
    use std::test::Fail;

    const APART: [u32; 7] = [5_000, 10_000, 15_000, 20_000, 25_000, 30_000, 35_000];

    fn sender(identifier: u32, jitter: u32, spans: [u32; 7]) -> Sender {
        Sender {
            node: identifier % 2,
            identifier,
            bytes: 0,
            jitter,
            spans,
        }
    }

    #[test]
    fn frames(rt: HostRuntime) {
        assert_eq!(rt; longest(0), Ok(55));
        assert_eq!(rt; longest(8), Ok(135));
        assert_eq!(rt; longest(9), Err(Refusal::Bytes));
    }

    #[test]
    fn ninth_place(rt: HostRuntime) -> Result<(), Fail> {
        let mut sheet = Sheet::new(rt.alloc())?;
        assert_eq!(rt;
            sheet.note(sender(7, 0, [100, 600, 700, 1_200, 1_300, 1_800, 1_900])),
            Ok(1)
        );
        assert_eq!(rt; sheet.place(0, 0, 1), Ok(0));
        assert_eq!(rt; sheet.place(0, 0, 9), Ok(2_000));
        Ok(())
    }

    #[test]
    fn last_window_bit(rt: HostRuntime) -> Result<(), Fail> {
        let mut sheet = Sheet::new(rt.alloc())?;
        assert_eq!(rt;
            sheet.note(sender(1, 0, [110, 220, 330, 440, 550, 660, 770])),
            Ok(1)
        );
        assert_eq!(rt; sheet.note(sender(2, 0, APART)), Ok(2));
        assert_eq!(rt; bound(&sheet, 1), Ok(Some(220)));
        assert_eq!(rt; bound(&sheet, 2), Err(Refusal::Question));
        Ok(())
    }

    #[test]
    fn jitter_above_the_gap(rt: HostRuntime) -> Result<(), Fail> {
        let mut sheet = Sheet::new(rt.alloc())?;
        assert_eq!(rt;
            sheet.note(sender(3, 450, [200, 400, 600, 800, 1_000, 1_200, 1_400])),
            Ok(1)
        );
        assert_eq!(rt; sheet.place(0, 0, 1), Ok(-450));
        assert_eq!(rt; bound(&sheet, 0), Ok(Some(560)));
        Ok(())
    }

    #[test]
    fn full_load(rt: HostRuntime) -> Result<(), Fail> {
        let mut full = Sheet::new(rt.alloc())?;
        assert_eq!(rt;
            full.note(sender(3, 0, [55, 110, 165, 220, 275, 330, 385])),
            Ok(1)
        );
        assert_eq!(rt; bound(&full, 0), Ok(None));
        let mut near = Sheet::new(rt.alloc())?;
        assert_eq!(rt;
            near.note(sender(3, 0, [56, 112, 168, 224, 280, 336, 392])),
            Ok(1)
        );
        assert_eq!(rt; bound(&near, 0), Ok(Some(110)));
        Ok(())
    }

    #[test]
    fn load_above_one(rt: HostRuntime) -> Result<(), Fail> {
        let mut sheet = Sheet::new(rt.alloc())?;
        let mut burst = sender(3, 0, [900, 901, 902, 903, 904, 905, 906]);
        burst.bytes = 8;
        assert_eq!(rt; sheet.note(burst), Ok(1));
        assert_eq!(rt; bound(&sheet, 0), Ok(Some(270)));
        Ok(())
    }

    #[test]
    fn limits_of_a_sender(rt: HostRuntime) -> Result<(), Fail> {
        let mut sheet = Sheet::new(rt.alloc())?;
        let mut last = sender(2_047, 1_048_576, APART);
        last.node = 15;
        last.bytes = 8;
        last.spans = [1, 2, 3, 4, 5, 6, 8_388_608];
        assert_eq!(rt; sheet.note(last), Ok(1));
        let mut wrong = sender(2_048, 1_048_577, [0; 7]);
        wrong.node = 16;
        wrong.bytes = 9;
        assert_eq!(rt; sheet.note(wrong), Err(Refusal::Identifier));
        wrong.identifier = 2_047;
        assert_eq!(rt; sheet.note(wrong), Err(Refusal::Node));
        wrong.node = 15;
        assert_eq!(rt; sheet.note(wrong), Err(Refusal::Bytes));
        wrong.bytes = 8;
        assert_eq!(rt; sheet.note(wrong), Err(Refusal::Jitter));
        wrong.jitter = 1_048_576;
        assert_eq!(rt; sheet.note(wrong), Err(Refusal::Spans));
        wrong.spans = APART;
        assert_eq!(rt; sheet.note(wrong), Err(Refusal::Held));
        assert_eq!(rt; sheet.streams(), 1);
        Ok(())
    }

    #[test]
    fn limits_of_spans(rt: HostRuntime) -> Result<(), Fail> {
        let mut sheet = Sheet::new(rt.alloc())?;
        assert_eq!(rt;
            sheet.note(sender(1, 0, [0, 1, 2, 3, 4, 5, 6])),
            Err(Refusal::Spans)
        );
        assert_eq!(rt;
            sheet.note(sender(1, 0, [1, 2, 3, 3, 4, 5, 6])),
            Err(Refusal::Spans)
        );
        assert_eq!(rt;
            sheet.note(sender(1, 0, [1, 2, 3, 4, 5, 7, 6])),
            Err(Refusal::Spans)
        );
        assert_eq!(rt;
            sheet.note(sender(1, 0, [1, 2, 3, 4, 5, 6, 8_388_609])),
            Err(Refusal::Spans)
        );
        assert_eq!(rt; sheet.streams(), 0);
        assert_eq!(rt; sheet.note(sender(1, 0, [1, 2, 3, 4, 5, 6, 7])), Ok(1));
        Ok(())
    }

    #[test]
    fn limits_of_questions(rt: HostRuntime) -> Result<(), Fail> {
        let mut sheet = Sheet::new(rt.alloc())?;
        assert_eq!(rt;
            sheet.note(sender(1, 520, [1, 2, 3, 4, 5, 6, 8_388_608])),
            Ok(1)
        );
        assert_eq!(rt; sheet.reach(), 520);
        assert_eq!(rt; sheet.place(0, 0, 4_194_306), Ok(5_026_336_472_571));
        assert_eq!(rt; sheet.place(0, 0, 4_194_307), Err(Refusal::Question));
        assert_eq!(rt; sheet.place(0, 0, 0), Err(Refusal::Question));
        assert_eq!(rt; sheet.place(0, 1, 1), Err(Refusal::Question));
        assert_eq!(rt; sheet.count(0, 0, 20_971_000), Ok(21));
        assert_eq!(rt; sheet.count(0, 0, 20_971_001), Err(Refusal::Question));
        assert_eq!(rt; sheet.node(1), Err(Refusal::Question));
        assert_eq!(rt; sheet.cycle(15), Ok(1));
        assert_eq!(rt; sheet.cycle(16), Err(Refusal::Question));
        assert_eq!(rt; sheet.turns(15, 0), Ok(false));
        assert_eq!(rt; sheet.next_turn(16, 0), Err(Refusal::Question));
        assert_eq!(rt; sheet.next_turn(15, 0), Ok(None));
        Ok(())
    }

    #[test]
    fn a_full_sheet(rt: HostRuntime) -> Result<(), Fail> {
        let mut sheet = Sheet::new(rt.alloc())?;
        for identifier in 0..64 {
            assert_eq!(rt;
                sheet.note(sender(identifier, 0, APART)),
                Ok(identifier as usize + 1)
            );
        }
        assert_eq!(rt; sheet.note(sender(64, 0, APART)), Err(Refusal::Full));
        assert_eq!(rt; sheet.note(sender(63, 0, APART)), Err(Refusal::Held));
        assert_eq!(rt; sheet.streams(), 64);
        assert_eq!(rt; sheet.identifier(63), Ok(63));
        Ok(())
    }
}
