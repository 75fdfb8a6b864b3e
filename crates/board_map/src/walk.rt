ghost use Rattle.std.specs.Prelude.{◌≡◌, not, option_map, string_bytes};
ghost use Rattle.std.specs.List.{list_any};
ghost use Rattle.std.specs.BTreeMap.{keys};
ghost use Rattle.flat_model.specs.First.{first_of, refuse_if, unless_refused};
ghost use Rattle.flat_model.specs.declared.refusals.Key.TheVariants as key;
ghost use Rattle.flat_model.specs.declared.refusals.Spot.TheVariants as spot;
ghost use Rattle.board_map.specs.declared.rows.Form.TheVariants as form;
ghost use Rattle.toml.specs.Data.{as_table};
ghost use Rattle.toml.specs.View.{items_view, table_view, view};
ghost use Rattle.board_map.specs.Shape.{board_places, box_places, boxes_in, has_unknown, is_bad, is_known, pass_refusal, place_at, places, places_in, row_refusal, sections, shape_refusal, spot_in, table_refusal, turn, walk};
ghost use Rattle.board_map.specs.Tree.{table_at, value_at};

use crate::rows::{Form, Row, key_name};
use crate::totals::Totals;
use crate::tree::{array_at, number, table_at, value_at};
use flat_model::{Key, Refused, Spot};
use toml::{Table, Value};

/// One look through the whole document.
#[derive(Clone, Copy, PartialEq, Eq, Debug)]
pub enum Pass {
    Unknown,
    Missing,
    Bad,
    Many,
}

// A table of the document: where it stands, its kind, and what it holds.
#[derive(Clone, Copy)]
struct Place<'a> {
    spot: Spot,
    form: Form,
    table: &'a Table,
}

// The tables of one kind in one box, or in the document itself, whose number is then 0.
#[derive(Clone, Copy)]
struct Section {
    form: Form,
    at_box: u32,
}

// Whether a row has this key.
fn is_known(rows: &[Row], name: &str) -> bool
    ensures { result ≡ is_known rows.now name.now }
{
    rows.iter().any(|row| key_name(row.key) == name)
}

// Whether some key of the map is in no row.
fn has_stranger(rows: &[Row], table: &Table) -> bool
    ensures { result
        ≡ list_any (λ name. not (is_known rows.now (string_bytes name))) (keys table.now) }
{
    table.keys().any(|name| !is_known(rows, name.as_str()))
}

// Whether some key of the table is in no row.
#[tactic(auto, using(crate::proofs::Trees::has_unknown_by_keys))]
fn has_unknown(rows: &[Row], table: &Table) -> bool
    ensures { result ≡ has_unknown rows.now (table_view table.now) }
{
    has_stranger(rows, table)
}

// The refusal, where it holds.
fn refuse_if(holds: bool, refused: Refused) -> Option<Refused>
    ensures { result ≡ refuse_if holds refused }
{
    if holds { Some(refused) } else { None }
}

impl Row {
    // Whether the value at the key is there and breaks its rule.
    fn is_bad(self, totals: Totals, table: &Table) -> bool
        ensures { result
            ≡ is_bad self totals (table_view table.now) (value_at self.key (table_view table.now)) }
    {
        match value_at(table, self.key) {
            Some(value) => !self.rule.fits(totals, table, value),
            None => false,
        }
    }
}

impl Section {
    // The place of the table that stands in the section at this number.
    fn place<'a>(self, i: u32, table: &'a Table) -> Place<'a>
        ensures spot { result.spot ≡ spot_in self.form self.at_box i }
        ensures form { result.form ≡ self.form }
        ensures table { result.table.now ≡ table.now }
    {
        Place {
            spot: self.form.spot(self.at_box, i),
            form: self.form,
            table,
        }
    }
}

impl Pass {
    // What the pass refuses of one key of a table.
    fn row_refusal(self, totals: Totals, place: Place, row: Row) -> Option<Refused>
        ensures { result
            ≡ row_refusal self totals place.entry.spot (table_view place.entry.table.now) row }
    {
        let Place { spot, table, .. } = place;
        let key = row.key;
        match self {
            Pass::Unknown => None,
            Pass::Missing => {
                let missing = row.required && value_at(table, key).is_none();
                refuse_if(missing, Refused::MissingKey { spot, key })
            }
            Pass::Bad => refuse_if(row.is_bad(totals, table), Refused::BadValue { spot, key }),
            Pass::Many => {
                let many = row.limit.is_over(key, totals, table);
                refuse_if(many, Refused::TooMany { spot, key })
            }
        }
    }

    // What the pass refuses of the first key that it refuses.
    fn first_row(self, totals: Totals, place: Place, rows: &[Row]) -> Option<Refused>
        ensures { result ≡ first_of
            (row_refusal self totals place.entry.spot (table_view place.entry.table.now)) rows.now }
    {
        for row in rows {
            if let Some(refused) = self.row_refusal(totals, place, *row) {
                return Some(refused);
            }
        }
        None
    }

    // What the pass refuses of a table with these rows.
    fn table_refusal(self, totals: Totals, place: Place, rows: &[Row]) -> Option<Refused>
        ensures { result ≡ table_refusal self totals place.entry.spot
            (table_view place.entry.table.now) rows.now }
    {
        match self {
            Pass::Unknown => {
                let unknown = has_unknown(rows, place.table);
                refuse_if(unknown, Refused::UnknownKey { spot: place.spot })
            }
            _ => self.first_row(totals, place, rows),
        }
    }

    // The pass over one table.
    #[tactic(auto, unfolding(crate::specs::Shape::turn))]
    fn visit(self, totals: Totals, place: Place) -> Result<Totals, Refused>
        ensures { result ≡ turn self totals (record {
          spot = place.entry.spot;
          form = place.entry.form;
          members = table_view place.entry.table.now;
        }) }
    {
        let rows = place.form.rows(totals.version);
        match self.table_refusal(totals, place, rows) {
            Some(refused) => Err(refused),
            None => Ok(totals.after(place.form, place.table)),
        }
    }

    // The pass over the table that an item of a section is, if it is one.
    #[tactic(auto, using(crate::proofs::Walks::walk_one, crate::proofs::Walks::walk_none))]
    fn leaf(self, totals: Totals, section: Section, i: u32, item: &Value) -> Result<Totals, Refused>
        ensures { let spot = spot_in section.form section.at_box i in
            result ≡ walk self totals (place_at spot section.form (as_table (view item.now))) }
    {
        match item.as_table() {
            Some(table) => self.visit(totals, section.place(i, table)),
            None => Ok(totals),
        }
    }

    // The pass over the items of a section, whose tables hold no tables.
    fn leaves(
        self,
        mut totals: Totals,
        section: Section,
        items: &[Value],
    ) -> Result<Totals, Refused>
        ensures { result
            ≡ walk self totals (places_in section.form section.at_box 0 (items_view items.now)) }
    {
        for (i, item) in items.iter().enumerate() {
            totals = self.leaf(totals, section, number(i), item)?;
        }
        Ok(totals)
    }

    // The pass over the tables of these kinds that a table's arrays hold, kind after kind.
    fn sections(
        self,
        mut totals: Totals,
        at_box: u32,
        table: &Table,
        forms: &[Form],
    ) -> Result<Totals, Refused>
        ensures { result ≡ walk self totals (sections at_box (table_view table.now) forms.now) }
    {
        for form in forms {
            let form = *form;
            let items = array_at(table, form.array_key());
            totals = self.leaves(totals, Section { form, at_box }, items)?;
        }
        Ok(totals)
    }

    // The pass over a box and the tables in it.
    #[tactic(auto, using(crate::proofs::Walks::steps), unfolding(crate::specs::Shape::box_places))]
    fn whole_box(self, totals: Totals, at_box: u32, table: &Table) -> Result<Totals, Refused>
        ensures { result ≡ walk self totals (box_places at_box (Some (table_view table.now))) }
    {
        let place = Place {
            spot: Spot::AtBox(at_box),
            form: Form::AtBox,
            table,
        };
        let own = self.visit(totals, place)?;
        let forms = [Form::Thread, Form::Grant, Form::Irq];
        self.sections(own, at_box, table, &forms)
    }

    // The pass over the box that a value is, if it is a table.
    #[tactic(auto, using(crate::proofs::Walks::walk_none), unfolding(crate::specs::Shape::box_places))]
    fn one_box(self, totals: Totals, at_box: u32, table: Option<&Table>) -> Result<Totals, Refused>
        ensures { let members = option_map (λ m. table_view m.now) table.entry in
            result ≡ walk self totals (box_places at_box members) }
    {
        match table {
            Some(table) => self.whole_box(totals, at_box, table),
            None => Ok(totals),
        }
    }

    // The pass over the boxes of an array, each with the tables in it.
    fn boxes(self, mut totals: Totals, items: &[Value]) -> Result<Totals, Refused>
        ensures { result ≡ walk self totals (boxes_in 0 (items_view items.now)) }
    {
        for (i, item) in items.iter().enumerate() {
            totals = self.one_box(totals, number(i), item.as_table())?;
        }
        Ok(totals)
    }

    // The pass over the heap of a board, if it has one.
    #[tactic(auto, using(crate::proofs::Walks::walk_one, crate::proofs::Walks::walk_none))]
    fn heap(self, totals: Totals, board: &Table) -> Result<Totals, Refused>
        ensures { let members = table_at key.Heap (table_view board.now) in
            result ≡ walk self totals (place_at spot.Heap form.Heap members) }
    {
        match table_at(board, Key::Heap) {
            Some(table) => {
                let heap = Place {
                    spot: Spot::Heap,
                    form: Form::Heap,
                    table,
                };
                self.visit(totals, heap)
            }
            None => Ok(totals),
        }
    }

    // The pass over the board and its heap.
    #[tactic(auto, using(crate::proofs::Walks::steps), unfolding(crate::specs::Shape::board_places))]
    fn board(self, totals: Totals, table: Option<&Table>) -> Result<Totals, Refused>
        ensures { result
            ≡ walk self totals (board_places (option_map (λ m. table_view m.now) table.entry)) }
    {
        match table {
            Some(table) => {
                let place = Place {
                    spot: Spot::Board,
                    form: Form::Board,
                    table,
                };
                let own = self.visit(totals, place)?;
                self.heap(own, table)
            }
            None => Ok(totals),
        }
    }

    // The pass over the whole document.
    #[tactic(auto, using(crate::proofs::Walks::steps), unfolding(crate::specs::Shape::places))]
    fn everywhere(self, totals: Totals, document: &Table) -> Result<Totals, Refused>
        ensures { result ≡ walk self totals (places (table_view document.now)) }
    {
        let place = Place {
            spot: Spot::Top,
            form: Form::Top,
            table: document,
        };
        let top = self.visit(totals, place)?;
        let board = self.board(top, table_at(document, Key::Board))?;
        let boxes = self.boxes(board, array_at(document, Key::AtBox))?;
        let forms = [Form::Register, Form::Gateway, Form::Device];
        self.sections(boxes, 0, document, &forms)
    }

    // What the pass refuses of the document.
    #[tactic(auto, unfolding(crate::specs::Shape::pass_refusal))]
    fn refusal(self, document: &Table) -> Option<Refused>
        ensures { result ≡ pass_refusal (table_view document.now) self }
    {
        self.everywhere(Totals::opening(document), document).err()
    }
}

/// The first refusal of the document's shape (docs/INPUT.md), each pass over all tables in order.
#[tactic(auto, unfolding(crate::specs::Shape::shape_refusal))]
pub fn check_shape(document: &Table) -> Result<(), Refused>
    ensures { result ≡ unless_refused (shape_refusal (table_view document.now)) tt }
{
    for pass in [Pass::Unknown, Pass::Missing, Pass::Bad, Pass::Many] {
        if let Some(refused) = pass.refusal(document) {
            return Err(refused);
        }
    }
    Ok(())
}
