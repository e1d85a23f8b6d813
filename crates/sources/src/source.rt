// A source of any form.
ghost use Rattle.std.specs.Prelude.{◌≡◌, slice_index};
ghost use Rattle.sources.specs.Sources.{source_image};
ghost use Rattle.sources.specs.Judged.{form_kind};

use crate::kind::Kind;
use crate::sum_source::SumSource;
use crate::table_source::TableSource;
use crate::week_source::WeekSource;

#[derive(Clone, Copy, Debug, PartialEq, Eq)]
pub enum Source {
    Table(TableSource),
    Sum(SumSource),
    Week(WeekSource),
}

impl Source {
    pub(crate) fn kind(&self) -> Kind
        ensures { result ≡ form_kind (slice_index (source_image self.now) 1) }
    {
        match self {
            Source::Table(_) => Kind::Table,
            Source::Sum(_) => Kind::Sum,
            Source::Week(_) => Kind::Week,
        }
    }
}
