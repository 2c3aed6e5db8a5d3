//! Schema files as they are read and refused.
ghost use Rattle.std.specs.Prelude.{IsTrue};
ghost use Rattle.pdq_schema.specs.Fragments.{CutsRow};
ghost use Rattle.pdq_schema.specs.Schemas.{cut_of};

use crate::{Cut, SchemaFault, SchemaWhy, read_schema};
use pdq_value::{Kind, Text, Value};
use std::alloc::Global;
use std::test::Fail;

/// Why a schema is refused, with its table and column.
fn refusal(alloc: Global, text: &[u8]) -> Option<(SchemaWhy, u32, u32)> {
    match read_schema(alloc, text) {
        Err(SchemaFault::Wrong { why, table, column }) => Some((why, table, column)),
        _ => None,
    }
}

#[test]
fn schemas_are_refused(rt: HostRuntime) -> Result<(), Fail> {
    let alloc = rt.alloc();
    for (text, why, table, column) in [
        ("", SchemaWhy::MissingKey, 0, 0),
        ("table", SchemaWhy::NotToml, 0, 0),
        ("table=1\ntable=1", SchemaWhy::NotToml, 0, 0),
        ("tables=1", SchemaWhy::UnknownKey, 0, 0),
        ("[table]", SchemaWhy::MissingKey, 0, 0),
        ("table=[]", SchemaWhy::MissingKey, 0, 0),
        ("table=[1]", SchemaWhy::MissingKey, 0, 0),
        (
            "table=[{},{},{},{},{},{},{},{},{},{},{},{},{},{},{},{},{}]",
            SchemaWhy::TooMany,
            0,
            0,
        ),
        (
            "table=[{file='f',column=[{name='k',kind='number',scale=2}],color=1}]",
            SchemaWhy::UnknownKey,
            1,
            0,
        ),
        (
            "table=[{file='f',column=[{name='k',kind='number',scale=2}]}]",
            SchemaWhy::MissingKey,
            1,
            0,
        ),
        (
            "table=[{name=1,file='f',column=[{name='k',kind='number',scale=2}]}]",
            SchemaWhy::MissingKey,
            1,
            0,
        ),
        (
            "table=[{name='t',column=[{name='k',kind='number',scale=2}]}]",
            SchemaWhy::MissingKey,
            1,
            0,
        ),
        ("table=[{name='t',file='f'}]", SchemaWhy::MissingKey, 1, 0),
        (
            "table=[{name='t',file='f',column=[]}]",
            SchemaWhy::MissingKey,
            1,
            0,
        ),
        (
            "table=[{name='T',file='f',column=[1]}]",
            SchemaWhy::MissingKey,
            1,
            0,
        ),
        (
            "table=[{name='T',file='f',column=[{name='k',kind='number',scale=2}]}]",
            SchemaWhy::BadName,
            1,
            0,
        ),
        (
            "table=[{name='count',file='f',column=[{name='k',kind='number',scale=2}]}]",
            SchemaWhy::BadName,
            1,
            0,
        ),
        (
            "table=[{name='t',file='f',column=[{},{},{},{},{},{},{},{},{},{},{},{},{},{},{},{},{}]}]",
            SchemaWhy::TooMany,
            1,
            0,
        ),
        (
            "table=[{name='t',file='f',column=[{name='k',kind='text',size=1}]}]",
            SchemaWhy::UnknownKey,
            1,
            1,
        ),
        (
            "table=[{name='t',file='f',column=[{kind='text'}]}]",
            SchemaWhy::MissingKey,
            1,
            1,
        ),
        (
            "table=[{name='t',file='f',column=[{name='k',kind='text'},{name='l',kind=1}]}]",
            SchemaWhy::MissingKey,
            1,
            2,
        ),
        (
            "table=[{name='t',file='f',column=[{name='k k',kind='dates'}]}]",
            SchemaWhy::BadName,
            1,
            1,
        ),
        (
            "table=[{name='t',file='f',column=[{name='k',kind='text'},{name='k',kind='dates'}]}]",
            SchemaWhy::TwoNames,
            1,
            2,
        ),
        (
            "table=[{name='t',file='f',column=[{name='k',kind='date'}]}]",
            SchemaWhy::BadKind,
            1,
            1,
        ),
        (
            "table=[{name='t',file='f',column=[{name='k',kind='text',scale=0}]}]",
            SchemaWhy::BadKind,
            1,
            1,
        ),
        (
            "table=[{name='t',file='f',column=[{name='k',kind='number',scale=7}]}]",
            SchemaWhy::BadKind,
            1,
            1,
        ),
        (
            "table=[{name='t',file='f',column=[{name='k',kind='number',scale=-1}]}]",
            SchemaWhy::BadKind,
            1,
            1,
        ),
        (
            "table=[{name='t',file='f',column=[{name='k',kind='number',scale=1.0}]}]",
            SchemaWhy::BadKind,
            1,
            1,
        ),
        (
            "table=[{name='t',file='f',column=[{name='k',kind='number',scale='2'}],round_robin=0}]",
            SchemaWhy::BadKind,
            1,
            1,
        ),
        (
            "table=[{name='t',file='f',column=[{name='k',kind='number',scale=2}],round_robin=0}]",
            SchemaWhy::BadFragment,
            1,
            0,
        ),
        (
            "table=[{name='t',file='f',column=[{name='k',kind='number',scale=2}],round_robin=17}]",
            SchemaWhy::BadFragment,
            1,
            0,
        ),
        (
            "table=[{name='t',file='f',column=[{name='k',kind='number',scale=2}],round_robin='2'}]",
            SchemaWhy::BadFragment,
            1,
            0,
        ),
        (
            "table=[{name='t',file='f',column=[{name='k',kind='number',scale=2}],by='k'}]",
            SchemaWhy::BadFragment,
            1,
            0,
        ),
        (
            "table=[{name='t',file='f',column=[{name='k',kind='number',scale=2}],range=[{from='1'}]}]",
            SchemaWhy::BadFragment,
            1,
            0,
        ),
        (
            "table=[{name='t',file='f',column=[{name='k',kind='number',scale=2}],round_robin=2,by='k',range=[{from='1'}]}]",
            SchemaWhy::BadFragment,
            1,
            0,
        ),
        (
            "table=[{name='t',file='f',column=[{name='k',kind='number',scale=2}],by='K',range=[{from='1'}]}]",
            SchemaWhy::BadFragment,
            1,
            0,
        ),
        (
            "table=[{name='t',file='f',column=[{name='k',kind='number',scale=2}],by=1,range=[{from='1'}]}]",
            SchemaWhy::BadFragment,
            1,
            0,
        ),
        (
            "table=[{name='t',file='f',column=[{name='k',kind='number',scale=2}],by='k',range=[]}]",
            SchemaWhy::BadFragment,
            1,
            0,
        ),
        (
            "table=[{name='t',file='f',column=[{name='k',kind='number',scale=2}],by='k',range=1}]",
            SchemaWhy::BadFragment,
            1,
            0,
        ),
        (
            "table=[{name='t',file='f',column=[{name='k',kind='number',scale=2}],by='k',range=[1]}]",
            SchemaWhy::BadFragment,
            1,
            0,
        ),
        (
            "table=[{name='t',file='f',column=[{name='k',kind='number',scale=2}],by='k',range=[{}]}]",
            SchemaWhy::BadFragment,
            1,
            0,
        ),
        (
            "table=[{name='t',file='f',column=[{name='k',kind='number',scale=2}],by='k',range=[{from='1',to='2'}]}]",
            SchemaWhy::BadFragment,
            1,
            0,
        ),
        (
            "table=[{name='t',file='f',column=[{name='k',kind='number',scale=2}],by='k',range=[{from=1}]}]",
            SchemaWhy::BadFragment,
            1,
            0,
        ),
        (
            "table=[{name='t',file='f',column=[{name='k',kind='number',scale=2}],by='k',range=[{from='1.005'}]}]",
            SchemaWhy::BadFragment,
            1,
            0,
        ),
        (
            "table=[{name='t',file='f',column=[{name='k',kind='number',scale=2}],by='k',range=[{below=' 1'}]}]",
            SchemaWhy::BadFragment,
            1,
            0,
        ),
        (
            "table=[{name='t',file='f',column=[{name='k',kind='number',scale=2}],by='k',range=[{below='10000000000000000'}]}]",
            SchemaWhy::BadFragment,
            1,
            0,
        ),
        (
            "table=[{name='t',file='f',column=[{name='k',kind='number',scale=2}],by='k',range=[{from='1'},{from='1'},{from='1'},{from='1'},{from='1'},{from='1'},{from='1'},{from='1'},{from='1'},{from='1'},{from='1'},{from='1'},{from='1'},{from='1'},{from='1'},{from='1'}]}]",
            SchemaWhy::BadFragment,
            1,
            0,
        ),
        (
            "table=[{name='t',file='f',column=[{name='k',kind='number',scale=2}]},{name='t',file='f',column=[{name='k',kind='number',scale=2}]}]",
            SchemaWhy::TwoNames,
            2,
            0,
        ),
        (
            "table=[{name='t',file='f',column=[{name='k',kind='number',scale=2}],by='k'},{name='t',file='f',column=[{name='k',kind='number',scale=2}],color=1}]",
            SchemaWhy::BadFragment,
            1,
            0,
        ),
    ] {
        assert_eq!(rt;
            refusal(alloc, text.as_bytes()),
            Some((why, table, column)),
            "at {text}"
        );
    }
    assert_eq!(rt; refusal(alloc, b"# \xff"), Some((SchemaWhy::NotToml, 0, 0)));
    let blanks = vec![in alloc; b' '; 1_048_577]?;
    assert_eq!(rt; refusal(alloc, &blanks), Some((SchemaWhy::TooMany, 0, 0)));
    assert_eq!(rt;
        refusal(alloc, &blanks[1..]),
        Some((SchemaWhy::MissingKey, 0, 0))
    );
    Ok(())
}

fn fits(cut: &Cut, row: &[Value]) -> bool
    ensures { IsTrue result → CutsRow (cut_of cut.now) row.now }
{
    match cut {
        Cut::Rounds(count) => *count >= 1 && *count <= 16,
        Cut::Ranges { column, ranges } => (*column as usize) < row.len() && ranges.len() <= 15,
    }
}

/// The fragments of these rows of a schema's first table.
fn fragments(alloc: Global, text: &str, rows: &[[Value; 1]]) -> Result<Vec<u32>, Fail> {
    let schema = read_schema(alloc, text.as_bytes()).map_err(|_| "refused")?;
    let cut = schema.cut(0);
    let mut fragments = Vec::new(alloc);
    for (place, row) in (0..100).zip(rows) {
        if !fits(cut, row) {
            return Err("another cut".into());
        }
        fragments.push(cut.fragment_number(place, row))?;
    }
    fragments.push(schema.fragments(0))?;
    Ok(fragments)
}

fn words(alloc: Global, text: &str) -> Result<[Value; 1], Fail> {
    let text = Text::from_str(alloc, text).map_err(|_| "memory")?;
    Ok([Value::Words(text)])
}

#[test]
fn rows_stand_in_fragments(rt: HostRuntime) -> Result<(), Fail> {
    let alloc = rt.alloc();
    let numbers = [
        [Value::Number(10)],
        [Value::Number(9)],
        [Value::Number(11)],
        [Value::Number(-20)],
    ];
    let one = "[[table]]\nname='t'\nfile='f'\ncolumn=[{name='k',kind='number'}]\n";
    for (cut, wanted) in [
        ("by='k'\nrange=[{below='10'}]", [1, 0, 1, 0, 2]),
        (
            "by='k'\n[[table.range]]\nfrom='10'\n[[table.range]]\nfrom='-20'\nbelow='11'",
            [0, 1, 0, 1, 3],
        ),
        ("round_robin=3", [0, 1, 2, 0, 3]),
        ("", [0, 0, 0, 0, 1]),
    ] {
        let text = format!(in alloc; "{one}{cut}")?;
        assert_eq!(rt;
            fragments(alloc, &text, &numbers)?.as_slice(),
            wanted.as_slice(),
            "at {cut}"
        );
    }
    let texts = [
        words(alloc, "Moor")?,
        words(alloc, "Hill")?,
        words(alloc, "hill")?,
    ];
    let text =
        "table=[{name='t',file='f',column=[{name='k',kind='text'}],by='k',range=[{from='I',below='a'}]}]";
    assert_eq!(rt;
        fragments(alloc, text, &texts)?.as_slice(),
        [0, 1, 1, 2].as_slice()
    );
    Ok(())
}

/// A file of two tables, with what TOML 1.1 allows of an inline table.
const SHOPS: &str = "[[table]]
name = \"sales\"   # of a year
file = \"sales.csv\"
round_robin = 4
column = [
  { name = \"shop\", kind = \"number\" },
  {
    name = \"amount\",
    kind = \"number\", scale = 2,
  },
]

[[table]]
name = 'shops'
file = '../shops.csv'
[[table.column]]
name = 'city'
kind = 'text'
";

#[test]
fn schemas_are_read(rt: HostRuntime) -> Result<(), Fail> {
    let alloc = rt.alloc();
    let schema = read_schema(alloc, SHOPS.as_bytes()).map_err(|_| "refused")?;
    let schema = schema.copy(alloc).map_err(|_| "memory")?;
    let [sales, shops] = schema.shapes() else {
        return Err("tables".into());
    };
    assert_eq!(rt; sales.name.bytes(), b"sales".as_slice());
    assert_eq!(rt; sales.columns.len(), 2);
    assert_eq!(rt; sales.columns[1].name.bytes(), b"amount".as_slice());
    assert_eq!(rt; sales.columns[1].kind, Kind::Number { scale: 2 });
    assert_eq!(rt; shops.columns.len(), 1);
    assert_eq!(rt; shops.columns[0].kind, Kind::Words);
    assert_eq!(rt; schema.file(1), "../shops.csv");
    assert_eq!(rt; (schema.fragments(0), schema.fragments(1)), (4, 1));
    Ok(())
}
