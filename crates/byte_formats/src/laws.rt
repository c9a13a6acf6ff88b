//! Laws of the definitions, each the contract of a function that does nothing.

ghost use Rattle.byte_formats.specs.Bodies.{BodiesDecodeWell};
ghost use Rattle.byte_formats.specs.Format.{Format};
ghost use Rattle.byte_formats.specs.Lawful.{Lawful};
ghost use Rattle.byte_formats.specs.Whole.{DecodesWell};

/// Decoding by a lawful format returns the value that the bytes spell, or the place of the first error.
pub fn lawful_formats_decode_well<X>()
    ensures { (f : Format X) → Lawful f → DecodesWell f }
{}

/// Decoding a body by a lawful format returns the value that it spells, or the place of a field: the bytes before the
/// place decode or end inside a field, and an invalid field is so whatever follows the body.
pub fn lawful_formats_decode_bodies_well<X>()
    ensures { (f : Format X) → Lawful f → BodiesDecodeWell f }
{}
