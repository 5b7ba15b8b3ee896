// Examples of what the layers below the programs do.
#![tactic(auto)]

#[cfg(test)]
mod tests {
    use file::FileFault;
    use layout::{Layout, ProblemFault};
    use scale::{Points, Scale};
    use std::test::Fail;
    use tables::Tables;

    // Where a test needs what is declined here, it fails with the refusal's number.
    fn refused(fault: ProblemFault) -> Fail {
        Fail::new(fault.number())
    }

    // Three variables of these sizes, and a function of all three.
    fn cube(a: usize, b: usize, c: usize) -> Result<Layout, ProblemFault> {
        let mut layout = Layout::empty();
        layout.add_variable(a)?;
        layout.add_variable(b)?;
        layout.add_variable(c)?;
        layout.add_function(&[0, 1, 2])?;
        Ok(layout)
    }

    #[test]
    fn table_of_1024_words_is_the_largest(rt: HostRuntime) {
        assert_eq!(rt; cube(16, 16, 4).err().map(ProblemFault::number), None);
        assert_eq!(rt; cube(16, 16, 5).err().map(ProblemFault::number), Some(8));
    }

    #[test]
    fn last_place_varies_fastest(rt: HostRuntime) -> Result<(), Fail> {
        let mut plan = [0; 64];
        plan[0] = 1;
        plan[1] = 2;
        let layout = cube(2, 3, 1).map_err(refused)?;
        assert_eq!(rt; layout.index(0, plan), 5);
        // (by the first place alone, which a first place that varies fastest would put at 1)
        plan[1] = 0;
        assert_eq!(rt; layout.index(0, plan), 3);
        Ok(())
    }

    #[test]
    fn words_that_read_alike_are_the_same(rt: HostRuntime) -> Result<(), Fail> {
        let mut ours = Tables::empty();
        let mut theirs = Tables::empty();
        let layout = cube(1, 1, 1).map_err(refused)?;
        ours.layout = layout;
        theirs.layout = layout;
        theirs.words[0] = 1_000_001;
        assert!(rt; tables::same::<Points>(&ours, &theirs));
        theirs.words[0] = 1_000_000;
        assert!(rt; !tables::same::<Points>(&ours, &theirs));
        Ok(())
    }

    #[test]
    fn short_buffer_is_declined_and_untouched(rt: HostRuntime) {
        let tables = Tables::empty();
        let mut buffer = [7; 17];
        assert_eq!(rt;
            file::write::<Points>(&tables, &mut buffer[0..15]).map_err(FileFault::number),
            Err(24)
        );
        assert_eq!(rt; buffer[0], 7);
        assert_eq!(rt;
            file::write::<Points>(&tables, &mut buffer).map_err(FileFault::number),
            Ok(16)
        );
        assert_eq!(rt; buffer[0], 1);
        assert_eq!(rt; buffer[16], 7);
    }

    #[test]
    fn declined_file_leaves_the_tables(rt: HostRuntime) -> Result<(), Fail> {
        let mut tables = Tables::empty();
        tables.layout = cube(2, 2, 2).map_err(refused)?;
        assert!(rt; file::read::<Points>(&[1, 0, 9], &mut tables).is_err());
        assert_eq!(rt; tables.layout.words(), 8);
        Ok(())
    }

    // Two variables of two values, and a function of both that gives 5 points where each has value 1.
    fn pair() -> Result<Tables, ProblemFault> {
        let mut tables = Tables::empty();
        editing::add_variable(&mut tables, 2)?;
        editing::add_variable(&mut tables, 2)?;
        editing::add_function::<Points>(&mut tables, &[0, 1])?;
        editing::set_entry::<Points>(&mut tables, 0, 3, 5)?;
        Ok(tables)
    }

    // The points, or the number of the refusal.
    fn told(answer: Result<Points, ProblemFault>) -> Result<i32, u16> {
        answer
            .map(|points| points.show().0)
            .map_err(ProblemFault::number)
    }

    #[test]
    fn values_are_scored_and_links_weighed(rt: HostRuntime) -> Result<(), Fail> {
        let tables = pair().map_err(refused)?;
        assert_eq!(rt; told(editing::score_of(&tables, &[1, 1])), Ok(5));
        assert_eq!(rt; told(editing::score_of(&tables, &[1, 0])), Ok(0));
        assert_eq!(rt; told(editing::score_of(&tables, &[1])), Err(15));
        assert_eq!(rt; told(editing::score_of(&tables, &[2, 1])), Err(16));
        assert_eq!(rt; told(editing::weigh(&tables, 0, 1)), Ok(5));
        assert_eq!(rt; told(editing::weigh(&tables, 1, 0)), Err(9));
        assert_eq!(rt; told(editing::weigh(&tables, 0, 2)), Err(17));
        Ok(())
    }
}
