// Text put on a page, one piece after another: a page is a lent buffer and how far it is filled. What has no room is left out.
ghost use Rattle.std.specs.Prelude.{◌≡◌, [], ◌∷◌};
ghost use Rattle.text.specs.Page.{page, page_of, puts};

#[derive(Drop)]
pub(super) struct Page<'a> {
    pub(super) held: &'a mut [u8],
    pub(super) at: usize,
}

impl Page<'_> {
    // One character.
    pub(super) fn put(&mut self, c: u8)
        ensures text { page_of self.new ≡ puts (c ∷ []) (page_of self.old) }
        ensures same_buffer { self.new.held.ghost_name ≡ self.old.held.ghost_name }
    {
        if self.at < self.held.len() {
            self.held[self.at] = c;
            self.at += 1;
        }
    }

    // The characters of a slice.
    pub(super) fn put_text(&mut self, text: &[u8])
        ensures text { page_of self.new ≡ puts text.now (page_of self.old) }
        ensures same_buffer { self.new.held.ghost_name ≡ self.old.held.ghost_name }
    {
        for c in text {
            self.put(*c);
        }
    }
}

// ---- on a lent buffer, from a place on: each answers the place after what it put

pub fn put(out: &mut [u8], at: usize, c: u8) -> usize
    ensures { page out.new result ≡ puts (c ∷ []) (page out.old at) }
{
    let mut filled = Page { held: out, at };
    filled.put(c);
    filled.at
}

pub fn put_text(out: &mut [u8], at: usize, text: &[u8]) -> usize
    ensures { page out.new result ≡ puts text.now (page out.old at) }
{
    let mut filled = Page { held: out, at };
    filled.put_text(text);
    filled.at
}
