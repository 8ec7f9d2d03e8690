//! Types of the program whose values are those of the laws of a call. A law that speaks of any
//! styles and pictures is called with them; nothing is made of them.
use h263_types::Format;
use picture_header::Header;
use std::marker::Model;

/// All of a picture header but its temporal references and its clock.
pub struct Styled {
    header: Header,
}

impl Model for Styled {
    ghost use Rattle.call_decoding.specs.Styles.{Style, style_of};

    ghost Value = { Style };

    ghost view = { λ s. style_of s.header };
}

/// A picture.
pub struct Pictured {
    format: Format,
    bytes: Vec<u8>,
}

impl Model for Pictured {
    ghost use Rattle.h263_planes.specs.Picture.{Picture};
    ghost use Rattle.h263_planes.specs.Layout.{picture_of};

    ghost Value = { Picture };

    ghost view = { λ p. picture_of p.format p.bytes.items };
}
