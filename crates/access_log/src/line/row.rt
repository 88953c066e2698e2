// A line of six fields.
ghost use Rattle.std.specs.Prelude.{◌≡◌};
ghost use Rattle.access_log.specs.Line.{side_of, place_of};
ghost use Rattle.access_log.specs.Line.Parts.{subject_of, field_of, fields_of, row_of};
ghost use Rattle.access_log.specs.Text.{Appends};

use crate::text::Writer;
use calls::types::Place;
use machine::types::Side;

// The third field: an access's place, a call's name, an answer's number.
#[derive(Clone, Copy)]
pub(crate) enum Subject {
    Place(Place),
    Name(&'static [u8]),
    Number(u32),
}

// One of the last three fields: a dash where there is nothing, a word, a number.
#[derive(Clone, Copy)]
pub(crate) enum Field {
    Dash,
    Word(u32),
    Number(u32),
}

#[derive(Clone, Copy)]
pub(crate) struct Row {
    pub(crate) side: Side,
    pub(crate) kind: &'static [u8],
    pub(crate) subject: Subject,
    pub(crate) fields: [Field; 3],
}

impl Writer<'_> {
    #[tactic(auto, unfolding(crate::specs::Line::side_of, crate::specs::Text::with_bytes))]
    fn side(&mut self, side: Side)
        ensures { Appends self.old self.new (side_of side) }
    {
        match side {
            Side::Hypervisor => self.byte(b'X'),
            Side::Guest => self.byte(b'G'),
        }
    }

    #[tactic(auto, using(crate::proofs::TextLaws::with_append), unfolding(crate::specs::Line::place_of, crate::specs::Text::with_bytes))]
    fn place(&mut self, place: Place)
        ensures { Appends self.old self.new (place_of place) }
    {
        match place {
            Place::Word(port) => {
                self.byte(b'w');
                self.decimal(port.0);
            }
            Place::Ready => self.bytes(b"ready"),
            Place::Head(queue) => {
                self.byte(b'h');
                self.decimal(queue.0);
            }
        }
    }

    #[tactic(auto, unfolding(crate::specs::Line::Parts::subject_of))]
    fn subject(&mut self, subject: &Subject)
        ensures { Appends self.old self.new (subject_of subject.now) }
    {
        match *subject {
            Subject::Place(place) => self.place(place),
            Subject::Name(name) => self.bytes(name),
            Subject::Number(n) => self.decimal(n),
        }
    }

    #[tactic(auto, unfolding(crate::specs::Line::Parts::field_of))]
    fn field(&mut self, field: &Field)
        ensures { Appends self.old self.new (field_of field.now) }
    {
        match *field {
            Field::Dash => self.byte(b'-'),
            Field::Word(word) => self.hex(word),
            Field::Number(n) => self.decimal(n),
        }
    }

    // The fields, each after its tab, and the newline.
    fn fields(&mut self, fields: &[Field])
        ensures { Appends self.old self.new (fields_of fields.now) }
    {
        for field in fields {
            self.byte(b'\t');
            self.field(field);
        }
        self.byte(b'\n');
    }

    #[tactic(auto, using(crate::proofs::TextLaws::with_append), unfolding(crate::specs::Line::Parts::row_of, crate::specs::Text::with_bytes))]
    pub(crate) fn row(&mut self, row: &Row)
        ensures { Appends self.old self.new (row_of row.now) }
    {
        self.side(row.side);
        self.byte(b'\t');
        self.bytes(row.kind);
        self.byte(b'\t');
        self.subject(&row.subject);
        self.fields(&row.fields);
    }
}
