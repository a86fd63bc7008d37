// Octets as pairs of hexadecimal digits; a minus alone is no octets.
ghost use Rattle.std.specs.Prelude.{◌≡◌, ◌<◌};
ghost use Rattle.text.specs.Page.{page, page_of, puts};
ghost use Rattle.text.specs.Octet.{glyph_of, octet_text, octets_text};

use super::page::Page;

// A hexadecimal digit, in upper case.
fn glyph(d: u8) -> u8
    requires { d < 16 }
    ensures { result ≡ glyph_of d }
{
    if d < 10 { 48 + d } else { 55 + d }
}

impl Page<'_> {
    // An octet as two digits.
    fn put_octet(&mut self, octet: u8)
        ensures text { page_of self.new ≡ puts (octet_text octet) (page_of self.old) }
        ensures same_buffer { self.new.held.ghost_name ≡ self.old.held.ghost_name }
    {
        self.put(glyph(octet / 16));
        self.put(glyph(octet % 16));
    }

    // Octets in upper case, a minus for none.
    fn put_octets(&mut self, octets: &[u8])
        ensures text { page_of self.new ≡ puts (octets_text octets.now) (page_of self.old) }
        ensures same_buffer { self.new.held.ghost_name ≡ self.old.held.ghost_name }
    {
        if octets.is_empty() {
            self.put(b'-');
            return;
        }
        for octet in octets {
            self.put_octet(*octet);
        }
    }
}

// On a lent buffer, from a place on; the place after them.
pub fn put_octets(out: &mut [u8], at: usize, octets: &[u8]) -> usize
    ensures { page out.new result ≡ puts (octets_text octets.now) (page out.old at) }
{
    let mut filled = Page { held: out, at };
    filled.put_octets(octets);
    filled.at
}
