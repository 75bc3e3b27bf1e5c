// Tests of open plans and of verdicts: the worked examples, and both edges of every limit.
#![tactic(auto)]

#[cfg(test)]
mod tests {
    use bus::refusal::Refusal;
    use bus::traffic::Traffic;
    use plan::open::OpenPlan;
    use plan::record::{Kind, Record};
    use settled::settled::calls::settle;
    use std::alloc::{AllocError, Global};
    use std::test::Fail;
    use verdict::{Judgement, Verdict, judge};

    const LONGEST: u64 = 1_048_576;

    fn timed(period: u64, offset: u64) -> Kind {
        Kind::Periodic { period, offset }
    }

    fn message(identifier: u64, node: u64, kind: Kind) -> Record {
        Record {
            identifier,
            node,
            bytes: 0,
            kind,
            jitter: 0,
            due: 400,
        }
    }

    // Stream 0 is the first message's, 1 and 2 are the second's, 3 is the third's.
    fn three_messages(heap: Global) -> Result<OpenPlan, AllocError> {
        let kind = Kind::Mixed {
            period: 600,
            offset: 100,
            gap: 1_000,
        };
        let mut second = message(20, 1, kind);
        second.bytes = 8;
        second.jitter = 450;
        let mut plan = OpenPlan::new(heap)?;
        let _ = plan.enter(message(10, 1, timed(400, 0)));
        let _ = plan.enter(second);
        let _ = plan.enter(message(30, 2, Kind::Sporadic { gap: 700 }));
        Ok(plan)
    }

    #[test]
    fn places(rt: HostRuntime) -> Result<(), Fail> {
        let plan = three_messages(rt.alloc())?;
        assert_eq!(rt; plan.place(0, 0, 1), Ok(0));
        assert_eq!(rt; plan.place(0, 1, 1), Ok(399));
        assert_eq!(rt; plan.place(0, 1, 3), Ok(1_199));
        assert_eq!(rt; plan.place(1, 0, 1), Ok(100));
        assert_eq!(rt; plan.place(1, 550, 1), Ok(-450));
        assert_eq!(rt; plan.place(1, 551, 1), Ok(149));
        assert_eq!(rt; plan.place(2, 551, 1), Ok(-450));
        assert_eq!(rt; plan.place(2, 551, 2), Ok(550));
        Ok(())
    }

    #[test]
    fn counts(rt: HostRuntime) -> Result<(), Fail> {
        let plan = three_messages(rt.alloc())?;
        assert_eq!(rt; plan.count(0, 1, 398), Ok(0));
        assert_eq!(rt; plan.count(0, 1, 399), Ok(1));
        assert_eq!(rt; plan.count(1, 0, 1_000), Ok(2));
        assert_eq!(rt; plan.count(1, 550, 1_000), Ok(3));
        assert_eq!(rt; plan.count(1, 551, 1_000), Ok(2));
        assert_eq!(rt; plan.count(2, 1_199, 549), Ok(1));
        assert_eq!(rt; plan.count(2, 1_199, 550), Ok(2));
        Ok(())
    }

    #[test]
    fn turning_phases(rt: HostRuntime) -> Result<(), Fail> {
        let plan = three_messages(rt.alloc())?;
        assert_eq!(rt; plan.cycle(1), Ok(1_200));
        assert_eq!(rt; plan.next_turn(1, 0), Ok(Some(0)));
        assert_eq!(rt; plan.next_turn(1, 1), Ok(Some(400)));
        assert_eq!(rt; plan.next_turn(1, 401), Ok(Some(550)));
        assert_eq!(rt; plan.next_turn(1, 551), Ok(Some(800)));
        assert_eq!(rt; plan.next_turn(1, 1_151), Ok(None));
        assert_eq!(rt; plan.turns(1, 1_150), Ok(true));
        assert_eq!(rt; plan.turns(1, 1_151), Ok(false));
        assert_eq!(rt; plan.next_turn(2, 0), Ok(None));
        Ok(())
    }

    #[test]
    fn limits_of_places_and_counts(rt: HostRuntime) -> Result<(), Fail> {
        let plan = three_messages(rt.alloc())?;
        assert_eq!(rt; plan.reach(), 450);
        assert_eq!(rt; plan.place(0, 1_199, 1), Ok(1));
        assert_eq!(rt; plan.place(0, 1_200, 1), Err(Refusal::Question));
        assert_eq!(rt; plan.place(4, 0, 1), Err(Refusal::Question));
        assert_eq!(rt; plan.place(0, 0, 0), Err(Refusal::Question));
        assert_eq!(rt; plan.place(1, 551, 4_194_306), Ok(2_516_583_149));
        assert_eq!(rt; plan.place(1, 551, 4_194_307), Err(Refusal::Question));
        assert_eq!(rt; plan.count(0, 0, 20_971_070), Ok(52_428));
        assert_eq!(rt; plan.count(0, 0, 20_971_071), Err(Refusal::Question));
        assert_eq!(rt; plan.count(3, 1, 0), Err(Refusal::Question));
        assert_eq!(rt; plan.count(4, 0, 0), Err(Refusal::Question));
        Ok(())
    }

    #[test]
    fn limits_of_nodes_and_streams(rt: HostRuntime) -> Result<(), Fail> {
        let plan = three_messages(rt.alloc())?;
        assert_eq!(rt; plan.streams(), 4);
        assert_eq!(rt; plan.node(3), Ok(2));
        assert_eq!(rt; plan.node(4), Err(Refusal::Question));
        assert_eq!(rt; plan.identifier(2), Ok(20));
        assert_eq!(rt; plan.identifier(4), Err(Refusal::Question));
        assert_eq!(rt; plan.longest(2), Ok(135));
        assert_eq!(rt; plan.longest(4), Err(Refusal::Question));
        assert_eq!(rt; plan.cycle(15), Ok(1));
        assert_eq!(rt; plan.cycle(16), Err(Refusal::Question));
        assert_eq!(rt; plan.turns(1, 1_199), Ok(false));
        assert_eq!(rt; plan.turns(1, 1_200), Err(Refusal::Question));
        assert_eq!(rt; plan.next_turn(15, 0), Ok(None));
        assert_eq!(rt; plan.next_turn(15, 1), Err(Refusal::Question));
        assert_eq!(rt; plan.next_turn(16, 0), Err(Refusal::Question));
        Ok(())
    }

    #[test]
    fn limits_of_a_message(rt: HostRuntime) -> Result<(), Fail> {
        let mut plan = OpenPlan::new(rt.alloc())?;
        let last = Record {
            identifier: 2_047,
            node: 15,
            bytes: 8,
            kind: timed(LONGEST, LONGEST - 1),
            jitter: LONGEST,
            due: 4_194_304,
        };
        assert_eq!(rt; plan.enter(last), Ok(1));
        let mut wrong = Record {
            identifier: 2_048,
            node: 16,
            bytes: 9,
            kind: timed(LONGEST + 1, LONGEST + 1),
            jitter: LONGEST + 1,
            due: 4_194_305,
        };
        assert_eq!(rt; plan.enter(wrong), Err(Refusal::Identifier));
        wrong.identifier = 2_047;
        assert_eq!(rt; plan.enter(wrong), Err(Refusal::Node));
        wrong.node = 15;
        assert_eq!(rt; plan.enter(wrong), Err(Refusal::Bytes));
        wrong.bytes = 8;
        assert_eq!(rt; plan.enter(wrong), Err(Refusal::Period));
        wrong.kind = timed(5, 5);
        assert_eq!(rt; plan.enter(wrong), Err(Refusal::Offset));
        wrong.kind = timed(5, 4);
        assert_eq!(rt; plan.enter(wrong), Err(Refusal::Jitter));
        wrong.jitter = LONGEST;
        assert_eq!(rt; plan.enter(wrong), Err(Refusal::Due));
        wrong.due = 1;
        assert_eq!(rt; plan.enter(wrong), Err(Refusal::Held));
        wrong.identifier = 0;
        assert_eq!(rt; plan.enter(wrong), Err(Refusal::Cycle));
        Ok(())
    }

    // What is answered to a message with the second period, where one with the first is held by its node.
    fn answer_to_second(
        heap: Global,
        first: u64,
        second: u64,
    ) -> Result<Result<usize, Refusal>, AllocError> {
        let mut plan = OpenPlan::new(heap)?;
        let _ = plan.enter(message(1, 1, timed(first, 0)));
        Ok(plan.enter(message(2, 1, timed(second, 0))))
    }

    #[test]
    fn limit_of_a_cycle(rt: HostRuntime) -> Result<(), Fail> {
        let heap = rt.alloc();
        assert_eq!(rt; answer_to_second(heap, LONGEST, 3)?, Ok(2));
        assert_eq!(rt; answer_to_second(heap, LONGEST, 5)?, Err(Refusal::Cycle));
        assert_eq!(rt; answer_to_second(heap, 2_047, 2_049)?, Ok(2));
        assert_eq!(rt; answer_to_second(heap, 1_985, 2_113)?, Err(Refusal::Cycle));
        assert_eq!(rt;
            answer_to_second(heap, LONGEST, 4_097)?,
            Err(Refusal::Cycle)
        );
        Ok(())
    }

    #[test]
    fn a_refusal_changes_nothing(rt: HostRuntime) -> Result<(), Fail> {
        let mut plan = three_messages(rt.alloc())?;
        let mut fourth = message(40, 1, timed(LONGEST - 1, 0));
        fourth.jitter = 900;
        assert_eq!(rt; plan.enter(fourth), Err(Refusal::Cycle));
        assert_eq!(rt; plan.len(), 3);
        assert_eq!(rt; plan.streams(), 4);
        assert_eq!(rt; plan.cycle(1), Ok(1_200));
        assert_eq!(rt; plan.reach(), 450);
        fourth.node = 2;
        assert_eq!(rt; plan.enter(fourth), Ok(4));
        assert_eq!(rt; plan.cycle(2), Ok(1_048_575));
        assert_eq!(rt; plan.reach(), 900);
        Ok(())
    }

    #[test]
    fn a_full_plan(rt: HostRuntime) -> Result<(), Fail> {
        let mut plan = OpenPlan::new(rt.alloc())?;
        let kind = Kind::Mixed {
            period: 9_000,
            offset: 0,
            gap: 9_000,
        };
        for identifier in 0..64 {
            assert_eq!(rt;
                plan.enter(message(identifier, identifier % 16, kind)),
                Ok(identifier as usize + 1)
            );
        }
        assert_eq!(rt; plan.enter(message(64, 1, kind)), Err(Refusal::Full));
        assert_eq!(rt; plan.enter(message(63, 1, kind)), Err(Refusal::Held));
        assert_eq!(rt; plan.streams(), 128);
        assert_eq!(rt; plan.identifier(127), Ok(63));
        Ok(())
    }

    fn told(bound: u32, judgement: Judgement) -> Result<Option<Verdict>, Refusal> {
        Ok(Some(Verdict { bound, judgement }))
    }

    // The verdict on a message that is alone, with the jitter and due at 400.
    fn alone(
        heap: Global,
        kind: Kind,
        jitter: u64,
    ) -> Result<Result<Option<Verdict>, Refusal>, AllocError> {
        let mut plan = OpenPlan::new(heap)?;
        let mut only = message(10, 1, kind);
        only.jitter = jitter;
        let _ = plan.enter(only);
        Ok(judge(&plan, 10, 400))
    }

    #[test]
    fn verdicts_on_one(rt: HostRuntime) -> Result<(), Fail> {
        let heap = rt.alloc();
        let mixed = Kind::Mixed {
            period: 400,
            offset: 0,
            gap: 400,
        };
        assert_eq!(rt; alone(heap, timed(400, 0), 0)?, told(110, Judgement::Met));
        assert_eq!(rt; alone(heap, mixed, 0)?, told(165, Judgement::Met));
        assert_eq!(rt;
            alone(heap, Kind::Sporadic { gap: 200 }, 450)?,
            told(560, Judgement::Late)
        );
        assert_eq!(rt; alone(heap, Kind::Sporadic { gap: 55 }, 0)?, Ok(None));
        assert_eq!(rt;
            alone(heap, Kind::Sporadic { gap: 56 }, 0)?,
            told(110, Judgement::Met)
        );
        Ok(())
    }

    #[test]
    fn verdicts_on_two(rt: HostRuntime) -> Result<(), Fail> {
        let mut one_node = OpenPlan::new(rt.alloc())?;
        let _ = one_node.enter(message(10, 1, timed(400, 0)));
        let _ = one_node.enter(message(20, 1, timed(400, 200)));
        assert_eq!(rt; judge(&one_node, 10, 110), told(110, Judgement::Met));
        assert_eq!(rt; judge(&one_node, 20, 109), told(110, Judgement::Late));
        assert_eq!(rt; judge(&one_node, 30, 400), Err(Refusal::NotHeld));
        let mut two_nodes = OpenPlan::new(rt.alloc())?;
        let _ = two_nodes.enter(message(10, 1, timed(400, 0)));
        let _ = two_nodes.enter(message(20, 2, timed(400, 200)));
        assert_eq!(rt; judge(&two_nodes, 20, 400), told(165, Judgement::Met));
        let mut events = OpenPlan::new(rt.alloc())?;
        let _ = events.enter(message(1, 1, Kind::Sporadic { gap: 110 }));
        let _ = events.enter(message(2, 2, Kind::Sporadic { gap: 5_000 }));
        assert_eq!(rt; judge(&events, 2, 400), told(220, Judgement::Met));
        Ok(())
    }

    #[test]
    fn alter_and_the_cycle(rt: HostRuntime) -> Result<(), Fail> {
        let mut plan = OpenPlan::new(rt.alloc())?;
        assert_eq!(rt; plan.enter(message(1, 1, timed(LONGEST, 0))), Ok(1));
        assert_eq!(rt; plan.enter(message(2, 1, timed(4, 0))), Ok(2));
        assert_eq!(rt;
            plan.alter(message(3, 1, timed(4, 0))),
            Err(Refusal::NotHeld)
        );
        assert_eq!(rt; plan.alter(message(2, 1, timed(5, 0))), Err(Refusal::Cycle));
        assert_eq!(rt; plan.cycle(1), Ok(1_048_576));
        assert_eq!(rt; plan.alter(message(2, 2, timed(5, 0))), Ok(2));
        assert_eq!(rt; plan.cycle(1), Ok(1_048_576));
        assert_eq!(rt; plan.cycle(2), Ok(5));
        assert_eq!(rt; plan.alter(message(1, 2, timed(7, 0))), Ok(2));
        assert_eq!(rt; plan.cycle(1), Ok(1));
        assert_eq!(rt; plan.cycle(2), Ok(35));
        assert_eq!(rt; plan.identifier(0), Ok(1));
        Ok(())
    }

    #[test]
    fn strike_first_last_and_only(rt: HostRuntime) -> Result<(), Fail> {
        let mut plan = three_messages(rt.alloc())?;
        assert_eq!(rt; plan.strike(10), Ok(2));
        assert_eq!(rt; plan.cycle(1), Ok(600));
        assert_eq!(rt; plan.identifier(0), Ok(20));
        assert_eq!(rt; plan.strike(10), Err(Refusal::NotHeld));
        assert_eq!(rt; plan.strike(30), Ok(1));
        assert_eq!(rt; plan.streams(), 2);
        assert_eq!(rt; plan.reach(), 450);
        assert_eq!(rt; plan.strike(20), Ok(0));
        assert_eq!(rt; plan.streams(), 0);
        assert_eq!(rt; plan.reach(), 0);
        assert_eq!(rt; plan.cycle(1), Ok(1));
        Ok(())
    }

    #[test]
    fn room_after_a_strike(rt: HostRuntime) -> Result<(), Fail> {
        let mut plan = OpenPlan::new(rt.alloc())?;
        for identifier in 0..64 {
            let _ = plan.enter(message(identifier, 1, Kind::Sporadic { gap: 9_000 }));
        }
        let more = message(64, 1, Kind::Sporadic { gap: 9_000 });
        assert_eq!(rt; plan.enter(more), Err(Refusal::Full));
        assert_eq!(rt; plan.strike(31), Ok(63));
        assert_eq!(rt; plan.enter(more), Ok(64));
        assert_eq!(rt; plan.identifier(63), Ok(64));
        Ok(())
    }

    #[test]
    fn figures_of_the_records_then(rt: HostRuntime) -> Result<(), Fail> {
        let empty = settle(OpenPlan::new(rt.alloc())?);
        assert_eq!(rt; empty.verdict(10), Err(Refusal::NotHeld));
        let mut plan = empty.reopen();
        assert_eq!(rt; plan.enter(message(10, 1, timed(400, 0))), Ok(1));
        let first = settle(plan);
        assert_eq!(rt; first.verdict(10), told(110, Judgement::Met));
        let mut again = first.reopen();
        let mut longer = message(10, 1, timed(400, 0));
        longer.bytes = 8;
        assert_eq!(rt; again.alter(longer), Ok(1));
        let second = settle(again);
        assert_eq!(rt; second.verdict(10), told(270, Judgement::Met));
        assert!(rt; second.row(1).is_err());
        Ok(())
    }
}
