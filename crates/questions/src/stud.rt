// A shear stud, and what is answered of it.
#[derive(Clone, Copy, Debug, PartialEq, Eq)]
pub struct Stud {
    // in thousandths of a square inch
    pub area: u16,
    // tensile strength in psi
    pub fu: u32,
    // concrete strength f'c and modulus Ec in psi
    pub fc: u16,
    pub ec: u32,
}

#[derive(Clone, Copy, Debug, PartialEq, Eq)]
pub struct StudAnswer {
    // Q of one stud, in pounds
    pub force: u64,
    pub count: u64,
}
