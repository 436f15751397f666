ghost use Rattle.std.specs.Prelude.{◌<◌, ◌^◌, All, OnOk, flat_map};
ghost use Rattle.text_kit.specs.Terms.{AddsItems};
ghost use Rattle.plan_report.specs.Items.{certificate_items, certificate_line_items, spot_items};

use crate::lists::put_lengths;
use net_core::{Bytes, CutLine, NoMemory};
use plan_types::{CertLine, Certificate, Spot};
use text_kit::puts::{put_close, put_field, put_keyword, put_number, put_open, put_whole};

/// Puts last where a cut is, with its state and lengths if it is in no pool.
fn put_spot(text: &mut Bytes, spot: Spot, cut: &CutLine) -> Result<(), NoMemory>
    ensures { OnOk result (AddsItems text.old (spot_items spot cut.now) text.new) }
{
    match spot {
        Spot::Pool(index) => put_field(text, b"pool", index as u64),
        Spot::Local => {
            put_field(text, b"local", cut.state.0 as u64)?;
            put_lengths(text, cut.lengths.items())
        }
    }
}

/// Puts a line of a certificate last.
pub(crate) fn put_certificate_line(text: &mut Bytes, line: &CertLine) -> Result<(), NoMemory>
    requires { line.now.cut.right < 2 ^ 84 }
    ensures { OnOk result (AddsItems text.old (certificate_line_items line.now) text.new) }
{
    put_open(text)?;
    put_number(text, line.num)?;
    put_spot(text, line.spot, &line.cut)?;
    put_keyword(text, b"right")?;
    put_whole(text, line.cut.right)?;
    put_close(text)
}

/// Puts the lines of a certificate last.
fn put_certificate_lines(text: &mut Bytes, lines: &[CertLine]) -> Result<(), NoMemory>
    requires { All (λ l. l.cut.right < 2 ^ 84) lines.now }
    ensures { OnOk result (AddsItems text.old (flat_map certificate_line_items lines.now) text.new) }
{
    for line in lines {
        put_certificate_line(text, line)?;
    }
    Ok(())
}

/// Puts a certificate last.
pub(crate) fn put_certificate(text: &mut Bytes, certificate: &Certificate) -> Result<(), NoMemory>
    requires den { certificate.now.den < 2 ^ 72 }
    requires rights { All (λ l. l.cut.right < 2 ^ 84) certificate.now.lines }
    ensures { OnOk result (AddsItems text.old (certificate_items certificate.now) text.new) }
{
    put_keyword(text, b"CERTIFICATE")?;
    put_open(text)?;
    put_whole(text, certificate.den)?;
    put_certificate_lines(text, certificate.lines.items())?;
    put_close(text)
}
