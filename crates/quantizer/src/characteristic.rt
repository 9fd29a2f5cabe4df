// The four characteristics of a set, and the two bits that choose one.
ghost use Rattle.std.specs.Prelude.{◌≡◌};
ghost use Rattle.quantizer.specs.Choice.{chosen};

#[derive(Clone, Copy, PartialEq, Eq, Hash, Debug)]
pub enum Characteristic {
    Q0,
    Q1,
    Q2,
    Q3,
}

impl Characteristic {
    // The bits QC1 QC2 are the characteristic's number in binary, QC1 the higher.
    pub fn from_bits(qc1: bool, qc2: bool) -> Self
        ensures { result ≡ chosen qc1 qc2 }
    {
        match (qc1, qc2) {
            (false, false) => Characteristic::Q0,
            (false, true) => Characteristic::Q1,
            (true, false) => Characteristic::Q2,
            (true, true) => Characteristic::Q3,
        }
    }
}
