// Two tables of the same points, what is taken out measured by the one and what is put in by the other, and their rows.
// Over one table both are the same.

// The lengths that an edge has where it is taken out, and where it is put in.
#[derive(Clone, Copy)]
pub struct Tables<'a> {
    pub n: u16,
    pub out: &'a [u8],
    pub put: &'a [u8],
}

// The rows of both tables.
#[derive(Clone, Copy)]
pub struct Rows<'a> {
    pub n: u16,
    pub out: &'a [u32],
    pub put: &'a [u32],
}
