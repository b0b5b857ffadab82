#![tactic(auto)]

// Cases of the machine, run on hand-assembled code: every operation, every fault, both kinds, odd slicing and the
// limits.
pub mod runner;

#[cfg(test)]
mod tests {
    use crate::runner::{CaseRefusal, run};
    use code::check::check as check_code;
    use code::checked::Checked;
    use code::sizes::Sizes;
    use figures::fault::Fault;
    use figures::hundredths::Hundredths;
    use figures::whole::Whole;
    use machine::fault::RunFault;
    use machine::prepare::prepare;
    use machine::ready::Ready;
    use machine::refusal::Refusal;
    use machine::status::{Standing, Status};
    use rolls::roll::Ending;
    use rolls::table::TableRoll;
    use rolls::text::TextRoll;
    use std::alloc::AllocError;
    use std::test::Fail;

    fn whole(units: i32) -> Whole {
        Whole { units }
    }

    fn money(hundredths: i32) -> Hundredths {
        Hundredths { hundredths }
    }

    // The status of a run at its end.
    fn ended(count: u64, posted: usize) -> Status {
        Status {
            count,
            posted,
            standing: Standing::End,
        }
    }

    // The status of a run that a fault ended in the step of the statement at a text place.
    fn faulted(count: u64, posted: usize, fault: RunFault, place: u64) -> Status {
        Status {
            count,
            posted,
            standing: Standing::Fault(fault, place),
        }
    }

    // Constants a and b, an operation, what it posts and how the run ends.
    #[test]
    fn whole_calculations(rt: HostRuntime) {
        let end = ended(1, 1);
        let over = faulted(0, 0, RunFault::Calculation(Fault::OutOfRange), 77);
        let by_zero = faulted(0, 0, RunFault::Calculation(Fault::DivisionByZero), 77);
        let cases = [
            (10, 7, 2, 9, end),
            (11, 7, 9, -2, end),
            (12, 7, 2, 14, end),
            (13, 7, 2, 3, end),
            (15, 7, 9, 1, end),
            (15, 9, 7, 0, end),
            (16, 7, 7, 1, end),
            (16, 7, 8, 0, end),
            (17, 9, 7, 1, end),
            (17, 7, 9, 0, end),
            (19, 5, 0, 0, end),
            (19, 5, 6, 1, end),
            (20, 0, 0, 0, end),
            (20, 0, 6, 1, end),
            (21, 5, 0, 0, end),
            (21, 0, 0, 1, end),
            (21, 5, 6, 1, end),
            (12, 999_999_999, 3, 0, over),
            (13, 7, 0, 0, by_zero),
        ];
        for (operation, a, b, posts, comes_to) in cases {
            let mut book = [whole(0); 2];
            let mut roll = TableRoll::new(&[]);
            let operations = [1, 2, 2, operation, 29, 0];
            let operands = [77, a, b, 0, 0, 0];
            let came = run(
                &operations,
                &operands,
                10,
                &mut [whole(0); 8],
                &mut [whole(0); 4],
                &mut book,
                &mut roll,
            );
            assert_eq!(rt; came, Ok(comes_to));
            assert_eq!(rt; book[0].units, posts);
        }
    }

    // A constant, an operation on one figure, and what it posts.
    #[test]
    fn on_one_figure(rt: HostRuntime) {
        let cases = [
            (8, 7, 7),
            (9, 7, 1),
            (9, 0, 0),
            (14, 7, -7),
            (18, 7, 0),
            (18, 0, 1),
        ];
        for (operation, a, posts) in cases {
            let mut book = [whole(0); 2];
            let mut roll = TableRoll::new(&[]);
            let operations = [1, 2, operation, 29, 0];
            let operands = [77, a, 0, 0, 0];
            let came = run(
                &operations,
                &operands,
                10,
                &mut [whole(0); 8],
                &mut [whole(0); 4],
                &mut book,
                &mut roll,
            );
            assert_eq!(rt; came, Ok(ended(1, 1)));
            assert_eq!(rt; book[0].units, posts);
        }
    }

    // In hundredths: 7 / 2 is 3.50; TAKEW (28) rounds 3.50 to 4.00, and TAKE (27) does not.
    #[test]
    fn hundredths_cases(rt: HostRuntime) {
        let figures = [money(350)];
        for (operation, posts) in [(27, 350), (28, 400)] {
            let mut book = [money(0); 1];
            let mut roll = TableRoll::new(&figures);
            let operations = [1, 2, operation, 1, 3, 29, 0];
            let operands = [0, 0, 167_772_164_096, 3, 0, 0, 0];
            let came = run(
                &operations,
                &operands,
                1,
                &mut [money(0); 8],
                &mut [money(0); 4],
                &mut book,
                &mut roll,
            );
            assert_eq!(rt; came, Ok(ended(2, 1)));
            assert_eq!(rt; book[0].hundredths, posts);
        }
        for (operation, posts) in [(13, 350), (12, 1_400), (15, 0), (17, 100)] {
            let mut book = [money(0); 1];
            let mut roll = TableRoll::new(&figures);
            let operations = [1, 2, 2, operation, 29, 0];
            let operands = [0, 7, 2, 0, 0, 0];
            let came = run(
                &operations,
                &operands,
                1,
                &mut [money(0); 8],
                &mut [money(0); 4],
                &mut book,
                &mut roll,
            );
            assert_eq!(rt; came, Ok(ended(1, 1)));
            assert_eq!(rt; book[0].hundredths, posts);
        }
    }

    // Jumps, tables, arrays and the book: what a run comes to, and the first figure posted.
    #[test]
    fn flow_and_arrays(rt: HostRuntime) {
        // an array of the cells 2 to 4 with subscripts from -1 to 1
        let d = 167_755_395_074;
        let table = [1, 2, 24, 1, 2, 29, 0, 1, 2, 29, 0, 25, 22, 22];
        let outside = faulted(0, 0, RunFault::Subscript, 6);
        let full = faulted(2, 2, RunFault::BookFull, 8);
        let cases: [(&[u8], &[u64], Status, i32); 13] = [
            (&[0], &[0], ended(0, 0), 0),
            (
                &[1, 22, 1, 2, 29, 1, 2, 29, 0],
                &[0, 5, 9, 1, 0, 3, 2, 0, 0],
                ended(2, 1),
                2,
            ),
            (
                &[1, 2, 23, 2, 29, 26, 1, 2, 29, 0],
                &[0, 0, 5, 1, 0, 0, 7, 4, 0, 0],
                ended(2, 1),
                4,
            ),
            (
                &[1, 2, 23, 2, 29, 26, 1, 2, 29, 0],
                &[0, 1, 5, 1, 0, 0, 7, 4, 0, 0],
                ended(2, 2),
                1,
            ),
            (
                &table,
                &[0, 1, 11, 5, 1, 0, 0, 8, 2, 0, 0, 2, 3, 7],
                ended(2, 1),
                1,
            ),
            (
                &table,
                &[0, 2, 11, 5, 1, 0, 0, 8, 2, 0, 0, 2, 3, 7],
                ended(2, 1),
                2,
            ),
            (
                &table,
                &[0, 3, 11, 5, 1, 0, 0, 8, 2, 0, 0, 2, 3, 7],
                ended(2, 1),
                1,
            ),
            (
                &table,
                &[0, 0, 11, 5, 1, 0, 0, 8, 2, 0, 0, 2, 3, 7],
                ended(2, 1),
                1,
            ),
            (
                &[1, 2, 2, 6, 1, 2, 5, 29, 0],
                &[6, 1, 9, d, 4, 1, d, 0, 0],
                ended(2, 1),
                9,
            ),
            (
                &[1, 2, 2, 6, 1, 2, 5, 29, 0],
                &[6, 2, 9, d, 4, 1, d, 0, 0],
                outside,
                0,
            ),
            (&[1, 2, 7, 29, 0], &[6, 2, d, 0, 0], outside, 0),
            (
                &[1, 2, 4, 1, 3, 29, 0],
                &[0, 6, 3, 5, 3, 0, 0],
                ended(2, 1),
                6,
            ),
            (
                &[1, 2, 29, 1, 2, 29, 1, 2, 29, 0],
                &[0, 1, 0, 4, 2, 0, 8, 3, 0, 0],
                full,
                1,
            ),
        ];
        for (operations, operands, comes_to, posts) in cases {
            for slice in [1, 7, 1_000] {
                let mut book = [whole(0); 2];
                let mut roll = TableRoll::new(&[]);
                let came = run(
                    operations,
                    operands,
                    slice,
                    &mut [whole(0); 8],
                    &mut [whole(0); 4],
                    &mut book,
                    &mut roll,
                );
                assert_eq!(rt; came, Ok(comes_to));
                assert_eq!(rt; book[0].units, posts);
            }
        }
    }

    // The sum of a roll of n and n figures, in slices of any size: 12 steps over 2, 10, 20 post 30.
    #[test]
    fn slices_agree(rt: HostRuntime) {
        let operations = [
            1, 2, 27, 1, 2, 4, 1, 2, 4, 1, 2, 27, 1, 3, 3, 10, 4, 1, 3, 2, 10, 4, 1, 3, 3, 17, 23,
            1, 3, 29, 0,
        ];
        let operands = [
            0,
            0,
            167_772_164_096,
            9,
            0,
            1,
            15,
            1,
            2,
            40,
            0,
            167_772_164_099,
            50,
            1,
            3,
            0,
            1,
            25,
            2,
            1,
            0,
            2,
            25,
            2,
            0,
            0,
            9,
            60,
            1,
            0,
            0,
        ];
        let figures = [whole(2), whole(10), whole(20)];
        let short = [whole(2), whole(10)];
        for slice in [1, 2, 7, 11, 12, 13, 1_000] {
            let mut book = [whole(0); 2];
            let mut roll = TableRoll::new(&figures);
            let came = run(
                &operations,
                &operands,
                slice,
                &mut [whole(0); 8],
                &mut [whole(0); 4],
                &mut book,
                &mut roll,
            );
            assert_eq!(rt; came, Ok(ended(12, 1)));
            assert_eq!(rt; book[0].units, 30);
            // a roll that is too short ends the run at the second reading of x
            let mut ends = TableRoll::new(&short);
            let came = run(
                &operations,
                &operands,
                slice,
                &mut [whole(0); 8],
                &mut [whole(0); 4],
                &mut book,
                &mut ends,
            );
            assert_eq!(rt; came, Ok(faulted(7, 0, RunFault::Roll(Ending::End), 40)));
            // and so does one that is damaged there, at its byte 5
            let mut damaged = TextRoll::new(b"2\n10\nx\n");
            let came = run(
                &operations,
                &operands,
                slice,
                &mut [whole(0); 8],
                &mut [whole(0); 4],
                &mut book,
                &mut damaged,
            );
            assert_eq!(rt;
                came,
                Ok(faulted(7, 0, RunFault::Roll(Ending::Damaged(5)), 40))
            );
        }
    }

    // A refused case tells who refuses and why: the check a code of no operations, the machine a cell too few.
    #[test]
    fn refused_cases(rt: HostRuntime) {
        let mut roll = TableRoll::new(&[]);
        let none = run(
            &[],
            &[],
            1,
            &mut [whole(0); 8],
            &mut [whole(0); 4],
            &mut [],
            &mut roll,
        );
        assert_eq!(rt;
            none,
            Err(CaseRefusal::Check(code::refusals::Refusal::BadSizes))
        );
        let few = run(
            &[0],
            &[0],
            1,
            &mut [whole(0); 7],
            &mut [whole(0); 4],
            &mut [],
            &mut roll,
        );
        assert_eq!(rt; few, Err(CaseRefusal::Run(Refusal::CellCount)));
    }

    // The numbers under which users know the faults and the refusals, and the place in the roll that a fault tells.
    #[test]
    fn numbers(rt: HostRuntime) {
        let cases = [
            (RunFault::Calculation(Fault::OutOfRange), 31, None),
            (RunFault::Calculation(Fault::DivisionByZero), 32, None),
            (RunFault::Roll(Ending::End), 33, None),
            (RunFault::Roll(Ending::Damaged(5)), 34, Some(5)),
            (RunFault::BookFull, 35, None),
            (RunFault::Subscript, 36, None),
        ];
        for (fault, number, place) in cases {
            assert_eq!(rt; fault.number(), number);
            assert_eq!(rt; fault.roll_place(), place);
        }
        let refusals = [
            (Refusal::CellCount, 41),
            (Refusal::ShortStack, 42),
            (Refusal::NotNamed, 43),
            (Refusal::Ended, 44),
            (Refusal::StepLimit, 45),
            (Refusal::ShortBook, 46),
        ];
        for (refusal, number) in refusals {
            assert_eq!(rt; refusal.number(), number);
        }
    }

    // The sentences of the faults and the refusals.
    #[test]
    fn sentences(rt: HostRuntime) -> Result<(), AllocError> {
        let faults = [
            (
                RunFault::Calculation(Fault::OutOfRange),
                "a result lies over the range",
            ),
            (
                RunFault::Calculation(Fault::DivisionByZero),
                "a division by zero",
            ),
            (RunFault::Roll(Ending::End), "the roll has ended"),
            (RunFault::Roll(Ending::Damaged(5)), "the roll is damaged"),
            (RunFault::BookFull, "the book is full"),
            (RunFault::Subscript, "a subscript lies outside its bounds"),
        ];
        for (fault, sentence) in faults {
            assert_eq!(rt; fault.to_string(rt.alloc())?.as_str(), sentence);
        }
        let refusals = [
            (
                Refusal::CellCount,
                "the cells are not as many as the code has",
            ),
            (
                Refusal::ShortStack,
                "the stack is shorter than the code's depth",
            ),
            (Refusal::NotNamed, "this is not the number of a named cell"),
            (Refusal::Ended, "the run has ended"),
            (Refusal::StepLimit, "the run would pass 4,000,000,000 steps"),
            (
                Refusal::ShortBook,
                "the book is shorter than the figures posted",
            ),
        ];
        for (refusal, sentence) in refusals {
            assert_eq!(rt; refusal.to_string(rt.alloc())?.as_str(), sentence);
        }
        Ok(())
    }

    // 41 to 46 in one run that posts a figure and then goes round.
    #[test]
    fn refusals(rt: HostRuntime) -> Result<(), Fail> {
        let operations = [1, 2, 29, 1, 22];
        let operands = [0, 5, 0, 3, 3];
        let sizes = Sizes {
            operations: 5,
            named: 1,
            cells: 2,
            depth: 1,
        };
        let mut code = Checked::lone_halt();
        check_code(&mut code, sizes, &operations, &operands)?;
        let mut cells = [whole(9), whole(9)];
        let mut ready = Ready::lone_halt();
        let refused = prepare(&mut ready, &code, &mut [whole(9)]);
        assert_eq!(rt; refused, Err(Refusal::CellCount));
        assert_eq!(rt; ready.ask(&[whole(9)], 0).is_err(), true);
        prepare(&mut ready, &code, &mut cells)?;
        assert_eq!(rt; cells[1].units, 0);
        let refused = ready.enter(&mut cells, 1, whole(4));
        assert_eq!(rt; refused, Err(Refusal::NotNamed));
        ready.enter(&mut cells, 0, whole(4))?;
        assert_eq!(rt; ready.ask(&cells, 0)?.units, 4);
        let mut run = ready.start();
        let mut roll = TableRoll::new(&[]);
        let mut book = [whole(0); 1];
        let mut stack = [whole(0); 1];
        // 41 and 42 come first, then 45; 0 steps are made; then the figure is posted
        let refused = run.advance(1, &mut [whole(0)], &mut [], &mut book, &mut roll);
        assert_eq!(rt; refused, Err(Refusal::CellCount));
        let refused = run.advance(1, &mut cells, &mut [], &mut book, &mut roll);
        assert_eq!(rt; refused, Err(Refusal::ShortStack));
        let refused = run.advance(4_000_000_001, &mut cells, &mut stack, &mut book, &mut roll);
        assert_eq!(rt; refused, Err(Refusal::StepLimit));
        let made = run.advance(0, &mut cells, &mut stack, &mut book, &mut roll);
        assert_eq!(rt; made, Ok(0));
        let made = run.advance(1, &mut cells, &mut stack, &mut book, &mut roll);
        assert_eq!(rt; made, Ok(1));
        // one step was made: 4,000,000,000 more are too many, and a book of no length is too short
        let refused = run.advance(4_000_000_000, &mut cells, &mut stack, &mut [], &mut roll);
        assert_eq!(rt; refused, Err(Refusal::StepLimit));
        let refused = run.advance(3, &mut cells, &mut stack, &mut [], &mut roll);
        assert_eq!(rt; refused, Err(Refusal::ShortBook));
        let made = run.advance(7, &mut cells, &mut stack, &mut book, &mut roll);
        assert_eq!(rt; made, Ok(7));
        let status = Status {
            count: 8,
            posted: 1,
            standing: Standing::Going,
        };
        assert_eq!(rt; run.status(), status);
        assert_eq!(rt; run.ask(&cells, 0)?.units, 4);
        assert_eq!(rt; run.ask(&cells, 1).is_err(), true);
        Ok(())
    }
}
