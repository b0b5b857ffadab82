// Worked cases, shown from the definitions.

ghost use Rattle.figures.specs.Cases.{WorkedCases};

// Stands for the theorem that the worked cases hold.
pub fn worked_cases_hold()
    ensures { WorkedCases }
{}

#[cfg(test)]
mod tests {
    use crate::fault::Fault;
    use crate::hundredths::Hundredths;
    use crate::kind::Figures;
    use crate::whole::Whole;
    use crate::word::NoFigure;

    fn stored(r: Result<Whole, Fault>) -> Result<i32, u8> {
        r.map(|figure| figure.units).map_err(|fault| fault.number())
    }

    // a, b, then their sum, difference, product and quotient
    #[test]
    fn whole_calculations(rt: HostRuntime) {
        let cases = [
            (7, 2, Ok(9), Ok(5), Ok(14), Ok(3)),
            (-7, 2, Ok(-5), Ok(-9), Ok(-14), Ok(-3)),
            (7, 0, Ok(7), Ok(7), Ok(0), Err(32)),
            (
                2_000_000_000,
                1,
                Err(31),
                Ok(1_999_999_999),
                Ok(2_000_000_000),
                Ok(2_000_000_000),
            ),
            (
                -2_000_000_000,
                -1,
                Err(31),
                Ok(-1_999_999_999),
                Ok(2_000_000_000),
                Ok(2_000_000_000),
            ),
            (
                2_147_483_647,
                0,
                Ok(2_000_000_000),
                Ok(2_000_000_000),
                Ok(0),
                Err(32),
            ),
            (44_722, 44_722, Ok(89_444), Ok(0), Err(31), Ok(1)),
        ];
        for (a, b, sum, difference, product, quotient) in cases {
            let x = Whole { units: a };
            let y = Whole { units: b };
            assert_eq!(rt; stored(x.add(y)), sum);
            assert_eq!(rt; stored(x.subtract(y)), difference);
            assert_eq!(rt; stored(x.multiply(y)), product);
            assert_eq!(rt; stored(x.divide(y)), quotient);
        }
    }

    // a word, and the hundredths that are read of it
    #[test]
    fn money_read(rt: HostRuntime) {
        let cases = [
            ("2.50", Ok(250)),
            ("-0.05", Ok(-5)),
            ("7", Ok(700)),
            (".50", Err(NoFigure)),
            ("+1.00", Err(NoFigure)),
            ("20000000.01", Err(NoFigure)),
        ];
        for (word, read) in cases {
            assert_eq!(rt;
                word.parse().map(|figure: Hundredths| figure.hundredths),
                read
            );
        }
    }

    // hundredths, the nearest whole number, and the hundredths rounded
    #[test]
    fn hundredths_rounded(rt: HostRuntime) {
        let cases = [
            (350, 4, 400),
            (349, 3, 300),
            (-350, -3, -300),
            (-351, -4, -400),
            (-49, 0, 0),
            (-50, 0, 0),
            (-51, -1, -100),
            (2_000_000_000, 20_000_000, 2_000_000_000),
            (-2_147_483_648, -20_000_000, -2_000_000_000),
        ];
        for (h, whole, rounded) in cases {
            let x = Hundredths { hundredths: h };
            assert_eq!(rt; x.nearest(), whole);
            assert_eq!(rt; x.round().hundredths, rounded);
        }
    }
}
