// A line of the text.

/// What a line says: it opens or closes a component, or gives a property its value. The slices are parts of the text.
#[derive(Clone, Copy)]
pub enum Line<'a> {
    Begin(&'a [u8]),
    End(&'a [u8]),
    Property(&'a [u8], &'a [u8]),
}
