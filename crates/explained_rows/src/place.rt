ghost use Rattle.std.specs.Prelude.{◌≡◌, [], IsTrue, IfSome, true};
ghost use Rattle.explained_rows.specs.declared.place.Place.TheVariants.{Start};
ghost use Rattle.explained_rows.specs.Rows.{lines_told, next, place_after, takes, tells_line, told};

const NEWLINE: u8 = b'\n';

const BLANK: u8 = b' ';

const MARK: u8 = b'#';

/// Where the next octet of an explanation stands.
#[derive(Clone, Copy, Debug, PartialEq, Eq)]
pub enum Place {
    /// At the start of a row.
    Start,
    /// Behind one blank at the start of a row.
    Blank,
    /// Behind two blanks at the start of a row.
    Blanks,
    /// Behind two blanks and a mark at the start of a row.
    Mark,
    /// In a row of the transcript.
    Within,
    /// In a row that tells neither the transcript nor a line.
    Beside,
    /// In a row that tells a line of the scenario.
    Line,
}

impl Place {
    /// Where the octet behind this one stands.
    pub(crate) fn next(self, octet: u8) -> Place
        ensures { result ≡ next self octet }
    {
        if octet == NEWLINE {
            return Place::Start;
        }
        match self {
            Place::Start if octet == BLANK => Place::Blank,
            Place::Blank if octet == BLANK => Place::Blanks,
            Place::Blanks if octet == MARK => Place::Mark,
            Place::Mark if octet == MARK => Place::Within,
            Place::Blanks | Place::Within => Place::Within,
            Place::Start | Place::Line => Place::Line,
            Place::Blank | Place::Mark | Place::Beside => Place::Beside,
        }
    }

    /// Where the octet behind these stands.
    pub(crate) fn after(self, octets: &[u8]) -> Place
        ensures { result ≡ place_after self octets.now }
    {
        let mut place = self;
        for octet in octets {
            place = place.next(*octet);
        }
        place
    }

    /// Whether an octet here is one of the transcript.
    pub(crate) fn takes(self, octet: u8) -> bool
        ensures { result ≡ takes self octet }
    {
        match self {
            Place::Within => true,
            Place::Blanks => octet != MARK,
            Place::Mark => octet == MARK,
            Place::Start | Place::Blank | Place::Beside | Place::Line => false,
        }
    }

    /// Whether an octet here is one of a row that tells a line.
    pub(crate) fn tells_line(self, octet: u8) -> bool
        ensures { result ≡ tells_line self octet }
    {
        match self {
            Place::Line => true,
            Place::Start => octet != BLANK,
            Place::Blank | Place::Blanks | Place::Mark | Place::Within | Place::Beside => false,
        }
    }

    /// Whether none of these octets is one of the transcript or of a row that tells a line.
    pub(crate) fn is_beside(self, octets: &[u8]) -> bool
        ensures silent { IsTrue result → told self octets.now ≡ [] }
        ensures no_line { IsTrue result → lines_told self octets.now ≡ [] }
        ensures only { told self octets.now ≡ [] → lines_told self octets.now ≡ [] → IsTrue result }
    {
        let mut place = self;
        for octet in octets {
            if place.takes(*octet) || place.tells_line(*octet) {
                return false;
            }
            place = place.next(*octet);
        }
        true
    }

    /// The same, where a row ends with the last of them.
    pub(crate) fn ends_beside(self, octets: &[u8]) -> bool
        ensures silent { IsTrue result → told self octets.now ≡ [] }
        ensures no_line { IsTrue result → lines_told self octets.now ≡ [] }
        ensures ended { IsTrue result → place_after self octets.now ≡ Start }
    {
        self.is_beside(octets) && matches!(self.after(octets), Place::Start)
    }
}

/// Whether all of these octets are of rows that tell lines.
pub(crate) fn are_lines(octets: &[u8]) -> bool
    ensures { IsTrue result → lines_told Start octets.now ≡ octets.now }
{
    let mut place = Place::Start;
    for octet in octets {
        if !place.tells_line(*octet) {
            return false;
        }
        place = place.next(*octet);
    }
    true
}

/// What is put before a row of the transcript that begins with this octet, from a place in the explanation. Within a row that tells a
/// line there is nothing that ends it.
pub(crate) fn opening(place: Place, first: u8) -> Option<&'static [u8]>
    ensures silent { IfSome result (λ octets. told place octets.now ≡ []) }
    ensures no_line { IfSome result (λ octets. lines_told place octets.now ≡ []) }
    ensures opened { IfSome result (λ octets. takes (place_after place octets.now) first ≡ true) }
{
    let is_mark = first == MARK;
    match place {
        Place::Start if is_mark => Some(b"  #"),
        Place::Start => Some(b"  "),
        Place::Blank if is_mark => Some(b" #"),
        Place::Blank => Some(b" "),
        Place::Blanks if is_mark => Some(b"#"),
        Place::Mark if !is_mark => Some(b"\n  "),
        Place::Blanks | Place::Mark | Place::Within => Some(b""),
        Place::Beside if is_mark => Some(b"\n  #"),
        Place::Beside => Some(b"\n  "),
        Place::Line => None,
    }
}
