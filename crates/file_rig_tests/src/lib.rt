// A file rig run on examples: what it answers, what it refuses, and in which order.
#![tactic(auto)]

#[cfg(test)]
mod tests {
    use file_rig::table::FileRig;
    use file_rig::table::fault::AddFault;
    use kinds::design::{Design, DesignFault};
    use refusal::Code;
    use rig::Rig;
    use rig::cause::RigFault;
    use std::alloc::Global;
    use std::test::Fail;

    const TANK: Design = Design::Integrator {
        x: 2,
        lo: 0,
        hi: 20,
        m: 100,
    };

    // The refusal of a call by its numbers, where there is one.
    // This and `code` stand in layers_tests too: a library for so little would be no plainer.
    fn refused<T: Drop>(answer: Result<T, RigFault>) -> Option<Code> {
        answer.err().map(Code::from)
    }

    // A refusal by its four numbers.
    fn code(number: usize, layer: usize, a: usize, b: usize) -> Code {
        Code {
            number,
            layer,
            a,
            b,
        }
    }

    // A constant, then a tank from 2 within 0 and 20.
    fn two_units(heap: Global) -> Result<FileRig, Fail> {
        let mut rig = FileRig::new(heap);
        rig.add(b"draw", Design::Constant { v: 1 })?;
        rig.add(b"tank", TANK)?;
        Ok(rig)
    }

    #[test]
    fn what_is_not_there(rt: HostRuntime) -> Result<(), Fail> {
        let mut rig = two_units(rt.alloc())?;
        assert_eq!(rt; rig.units(), 2);
        assert_eq!(rt; refused(rig.put(2, 7, 1)), Some(code(1, 4, 2, 7)));
        assert_eq!(rt; refused(rig.put(0, 0, 1)), Some(code(1, 4, 0, 0)));
        assert_eq!(rt; refused(rig.put(1, 1, 1)), Some(code(1, 4, 1, 1)));
        assert_eq!(rt; refused(rig.get(1, 1)), Some(code(1, 4, 1, 1)));
        assert_eq!(rt; refused(rig.mask(1, 3)), Some(code(1, 4, 1, 3)));
        assert_eq!(rt; refused(rig.ports(9)), Some(code(1, 4, 9, 0)));
        assert_eq!(rt; refused(rig.status(16)), Some(code(1, 4, 16, 0)));
        assert_eq!(rt; refused(rig.step(2, 0)), Some(code(1, 4, 2, 0)));
        assert_eq!(rt; refused(rig.save(1, 4)), Some(code(1, 4, 1, 4)));
        assert_eq!(rt; refused(rig.restore(1, 4)), Some(code(1, 4, 1, 4)));
        assert_eq!(rt; refused(rig.free(5, 9)), Some(code(1, 4, 5, 9)));
        Ok(())
    }

    #[test]
    fn causes_in_their_order(rt: HostRuntime) -> Result<(), Fail> {
        let mut rig = two_units(rt.alloc())?;
        assert_eq!(rt; refused(rig.step(1, 0)), Some(code(2, 4, 1, 0)));
        assert_eq!(rt; refused(rig.step(1, 1_000_001)), Some(code(2, 4, 1, 0)));
        assert_eq!(rt; refused(rig.restore(1, 0)), Some(code(5, 4, 1, 0)));
        assert_eq!(rt; refused(rig.free(1, 3)), Some(code(5, 4, 1, 3)));
        rig.save(1, 2)?;
        assert_eq!(rt; refused(rig.save(1, 2)), Some(code(4, 4, 1, 2)));
        rig.put(1, 0, 3)?;
        assert_eq!(rt; rig.step(1, 10)?, 6);
        assert_eq!(rt; refused(rig.step(1, 0)), Some(code(2, 4, 1, 0)));
        assert_eq!(rt; refused(rig.step(1, 1)), Some(code(3, 4, 1, 0)));
        assert_eq!(rt; refused(rig.put(1, 0, 1)), Some(code(3, 4, 1, 0)));
        assert_eq!(rt; refused(rig.get(1, 0)), Some(code(3, 4, 1, 0)));
        assert_eq!(rt; refused(rig.save(1, 2)), Some(code(3, 4, 1, 2)));
        rig.restore(1, 2)?;
        assert_eq!(rt; rig.get(1, 0)?, 2);
        Ok(())
    }

    #[test]
    fn steps_and_places(rt: HostRuntime) -> Result<(), Fail> {
        let mut rig = two_units(rt.alloc())?;
        rig.put(1, 0, 3)?;
        rig.save(1, 0)?;
        assert_eq!(rt; rig.step(1, 4)?, 4);
        rig.save(1, 3)?;
        assert_eq!(rt; rig.get(1, 0)?, 14);
        assert_eq!(rt; rig.step(1, 3)?, 2);
        rig.restore(1, 3)?;
        assert_eq!(rt; rig.step(1, 2)?, 2);
        assert_eq!(rt; rig.get(1, 0)?, 20);
        assert_eq!(rt; rig.step(1, 1)?, 0);
        rig.restore(1, 0)?;
        assert_eq!(rt; rig.get(1, 0)?, 2);
        rig.put(1, 0, -1)?;
        assert_eq!(rt; rig.step(1, 5)?, 2);
        rig.free(1, 0)?;
        let status = rig.status(1)?;
        assert!(rt; status.loose);
        assert!(rt; !status.filled[0] && status.filled[3]);
        Ok(())
    }

    #[test]
    fn gains_and_constants(rt: HostRuntime) -> Result<(), Fail> {
        let mut rig = FileRig::new(rt.alloc());
        rig.add(b"net", Design::Gain { a: 2, b: -3, c: 5 })?;
        rig.add(
            b"sum",
            Design::Gain {
                a: 1000,
                b: 1000,
                c: 0,
            },
        )?;
        rig.add(b"k", Design::Constant { v: -7 })?;
        rig.put(0, 0, 10)?;
        rig.put(0, 1, 4)?;
        assert_eq!(rt; rig.get(0, 0)?, 13);
        rig.put(1, 0, 2_147_483_647)?;
        rig.put(1, 1, 2_147_483_647)?;
        assert_eq!(rt; rig.get(1, 0)?, 2_147_483_647);
        rig.put(1, 0, -2_147_483_648)?;
        rig.put(1, 1, -1)?;
        assert_eq!(rt; rig.get(1, 0)?, -2_147_483_648);
        assert_eq!(rt; rig.get(2, 0)?, -7);
        assert_eq!(rt; rig.step(2, 1_000_000)?, 1_000_000);
        assert_eq!(rt; rig.mask(0, 0)?, 3);
        assert_eq!(rt; rig.mask(2, 0)?, 0);
        Ok(())
    }

    #[test]
    fn units_refused(rt: HostRuntime) -> Result<(), Fail> {
        let mut rig = two_units(rt.alloc())?;
        assert_eq!(rt; rig.add(b"", TANK), Err(AddFault::BadName));
        assert_eq!(rt; rig.add(b"ninechars", TANK), Err(AddFault::BadName));
        assert_eq!(rt; rig.add(b"Tank", TANK), Err(AddFault::BadName));
        assert_eq!(rt;
            rig.add(
                b"tank",
                Design::Gain {
                    a: 1001,
                    b: 0,
                    c: 0,
                },
            ),
            Err(AddFault::NameUsed)
        );
        let left = Design::Gain {
            a: -1001,
            b: 1001,
            c: 0,
        };
        assert_eq!(rt;
            rig.add(b"g", left),
            Err(AddFault::BadDesign(DesignFault::FactorA))
        );
        let right = Design::Gain {
            a: -1000,
            b: 1001,
            c: 0,
        };
        assert_eq!(rt;
            rig.add(b"g", right),
            Err(AddFault::BadDesign(DesignFault::FactorB))
        );
        let both = Design::Integrator {
            x: 9,
            lo: 0,
            hi: 8,
            m: 0,
        };
        assert_eq!(rt;
            rig.add(b"i", both),
            Err(AddFault::BadDesign(DesignFault::StepLimit))
        );
        let outside = Design::Integrator {
            x: 9,
            lo: 0,
            hi: 8,
            m: 1_000_000,
        };
        assert_eq!(rt;
            rig.add(b"i", outside),
            Err(AddFault::BadDesign(DesignFault::Outside))
        );
        assert_eq!(rt; rig.units(), 2);
        assert_eq!(rt; rig.find(b"tank"), Some(1));
        assert_eq!(rt; rig.find(b"i"), None);
        Ok(())
    }

    #[test]
    fn a_seventeenth_unit(rt: HostRuntime) -> Result<(), Fail> {
        let mut rig = FileRig::new(rt.alloc());
        for letter in b'a'..=b'p' {
            rig.add(&[letter], Design::Constant { v: 0 })?;
        }
        assert_eq!(rt; rig.units(), 16);
        assert_eq!(rt; rig.add(b"", TANK), Err(AddFault::TableFull));
        assert_eq!(rt; rig.find(b"p"), Some(15));
        Ok(())
    }
}
