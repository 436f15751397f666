ghost use Rattle.std.{specs.Prelude.{◌≡◌, ◌++◌, OnOk, codes}, specs.Option.option_map_or};
ghost use Rattle.view_svg.specs.Pictures.{curve, point, spot_attributes};

use net_core::{Bytes, NoMemory};
use picture_layout::{Spot, Stroke};
use text_kit::write::put_decimal;

/// Puts a spot last, as the data of a path.
fn put_point(text: &mut Bytes, spot: Spot) -> Result<(), NoMemory>
    ensures { OnOk result (text.new ≡ text.old ++ point spot) }
{
    put_decimal(text, spot.x as u128)?;
    text.append(b" ")?;
    put_decimal(text, spot.y as u128)
}

/// Puts a spot last, as the attributes that end the opening tag of a text.
pub(crate) fn put_spot(text: &mut Bytes, spot: Spot) -> Result<(), NoMemory>
    ensures { OnOk result (text.new ≡ text.old ++ spot_attributes spot) }
{
    text.append(b" x=\"")?;
    put_decimal(text, spot.x as u128)?;
    text.append(b"\" y=\"")?;
    put_decimal(text, spot.y as u128)?;
    text.append(b"\">")
}

/// Puts what is between the ends of a link's line last: what it bends towards, or that it is straight.
fn put_bend(text: &mut Bytes, bend: Option<Spot>) -> Result<(), NoMemory>
    ensures { OnOk result (text.new ≡ text.old ++ option_map_or (λ bend. codes "Q" ++ point bend ++ codes " ") bend (codes "L")) }
{
    match bend {
        Some(bend) => {
            text.append(b"Q")?;
            put_point(text, bend)?;
            text.append(b" ")
        }
        None => text.append(b"L"),
    }
}

/// Puts the line of a link last, as the data of a path.
pub(crate) fn put_curve(text: &mut Bytes, stroke: &Stroke) -> Result<(), NoMemory>
    ensures { OnOk result (text.new ≡ text.old ++ curve stroke.now) }
{
    text.append(b"M")?;
    put_point(text, stroke.from)?;
    put_bend(text, stroke.bend)?;
    put_point(text, stroke.to)
}
