//! News: what the writer has published, handed to a reader on another thread.

ghost use Rattle.std.specs.Prelude.{◌≡◌, Some, IfErr, IfSome, OnOk, OnErr};
ghost use Rattle.left_right.specs.Sides.{view as known};
ghost use Rattle.map_core.specs.State.{History};
ghost use Rattle.published_map.specs.Published.{Covers, KnowsAll};
ghost use Rattle.published_map.specs.Told.{knowledge_of};

use crate::published::{MapReader, MapWriter, Sees, inform};
use core::mem::replace_with;

/// What the writer has published, as a reader that was told it. It takes a reader's place while it is kept.
#[derive(Drop)]
pub struct News {
    reader: MapReader,
}

impl News {
    /// The reader that was told, to be kept for readings. It sees no less than what the news tell.
    pub fn into_reader(self) -> MapReader
        ensures { known result.place ≡ knowledge_of self }
    {
        let News { reader } = self;
        reader
    }
}

/// The news of what was published. `None` where `left_right` finds each reader's place in use. It waits for nobody.
pub fn tell(writer: &mut MapWriter) -> Option<News>
    ensures told { IfSome result (λ news. (knowledge_of news).told ≡ (known writer.old.desk.place).seen) }
    ensures known { known writer.new.desk.place ≡ known writer.old.desk.place }
    ensures kept { (writer.new.desk.shown ≡ writer.old.desk.shown) × (writer.new.log ≡ writer.old.log) × (writer.new.behind ≡ writer.old.behind) }
{
    let mut reader = writer.factory().reader().ok()?;
    inform(writer, &mut reader);
    Some(News { reader })
}

/// From now on the reader sees no less than what was told. At `Err` nothing is lost, the news comes back, and the call can be made again.
///
/// Both enter, the news first, and the reader's map is compared with the news's: the time is linear in the commands. It waits for nobody.
pub fn learn(reader: &mut MapReader, news: News) -> Result<(), News>
    ensures ok { OnOk result ((map : History) × ((known reader.new.place).seen ≡ Some map) × Covers map (known reader.old.place) × Covers map (knowledge_of news)) }
    ensures own { OnErr result (KnowsAll (known reader.new.place) (known reader.old.place)) }
    ensures news { IfErr result (λ back. KnowsAll (knowledge_of back) (knowledge_of news)) }
{
    replace_with(reader, news, |reader, news| learn_by(reader, news))
}

// Does what `learn` does, by a reader that it takes and returns.
fn learn_by(reader: MapReader, news: News) -> (MapReader, Result<(), News>)
    ensures ok { OnOk result.1 ((map : History) × ((known result.0.place).seen ≡ Some map) × Covers map (known reader.place) × Covers map (knowledge_of news)) }
    ensures own { OnErr result.1 (KnowsAll (known result.0.place) (known reader.place)) }
    ensures news { IfErr result.1 (λ back. KnowsAll (knowledge_of back) (knowledge_of news)) }
{
    let News { reader: teller } = news;
    let told = match teller.enter_as::<Sees>() {
        Ok(told) => told,
        Err(teller) => return (reader, Err(News { reader: teller })),
    };
    match reader.enter_as::<Sees>() {
        Ok(own) => {
            let fits = own.get().map.goes_on_from(&told.get().map);
            let reader = own.leave();
            let teller = told.leave();
            if fits {
                drop(teller);
                return (reader, Ok(()));
            }
            (reader, Err(News { reader: teller }))
        }
        Err(reader) => {
            let teller = told.leave();
            (reader, Err(News { reader: teller }))
        }
    }
}
