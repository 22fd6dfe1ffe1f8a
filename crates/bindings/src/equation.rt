// What the walk is given of an equation.

// The nodes of the terms of an equation, in prefix form, with the size of the term at each and the variables of that term. The bindings are passed beside it: they
// change with the line, and in unification from step to step.
#[derive(Clone, Copy)]
pub struct EquationTerms<'a> {
    pub nodes: &'a [u8],
    pub sizes: &'a [u8],
    pub variables: &'a [u16],
}
