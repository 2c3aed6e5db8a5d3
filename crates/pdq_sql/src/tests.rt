//! Worked examples: which selects and lines are taken, where the others are refused, and what they say.
ghost use Rattle.std.specs.Prelude.{◌≡◌};
ghost use Rattle.pdq_sql.specs.LineReading.{has_no_end};

use crate::{
    Ast, AstForm, AstLiteral, AstOrder, AstTest, Command, Compare, LineHome, SqlWhy, read_line,
    read_select,
};
use std::alloc::Global;
use std::test::Fail;

// The place at which a select is refused, or none.
fn select_place(alloc: Global, text: &[u8]) -> Result<Option<u32>, Fail> {
    if text.len() > 8192 {
        return Err(Fail::from("a long select"));
    }
    match read_select(alloc, text) {
        Ok(_) => Ok(None),
        Err(fault) if fault.why == SqlWhy::BadLine => Ok(Some(fault.place)),
        Err(_) => Err(Fail::from("memory")),
    }
}

#[test]
fn selects_are_taken_or_refused_at_a_place(rt: HostRuntime) -> Result<(), Fail> {
    for (text, want) in [
        ("select a from t", None),
        (
            "SELECT a, SUM(t.b), Count ( * ) FROM t, u WHERE a>='x''y'AND b=c and c<>-1.5 GROUP BY a ORDER BY 1DESC,a asc, b",
            None,
        ),
        (
            "select avg(a),min(a),max(a)from t where a<=1 and a<2 and a>3 and t.a=u.b",
            None,
        ),
        ("", Some(0)),
        ("   ", Some(3)),
        ("# select", Some(0)),
        ("select", Some(6)),
        ("select a from t  ", None),
        ("select a from  ", Some(15)),
        ("select a from t\r", Some(15)),
        ("select a from t\n", Some(15)),
        ("select a,, b from t", Some(9)),
        ("select a from t, t, t, t, t", None),
        ("select a from t u", Some(16)),
        ("select *", Some(7)),
        ("select count(a) from t", Some(13)),
        ("select sum(*) from t", Some(11)),
        ("select min from t", Some(11)),
        ("select from t", Some(7)),
        ("select t.from from t", Some(9)),
        ("select set from query", None),
        ("select a from order", Some(14)),
        ("select a from t where", Some(21)),
        ("select a from t where a < b", Some(26)),
        ("select a from t where 1 = a", Some(22)),
        ("select a from t where a = 'x", Some(26)),
        ("select a from t where a = ''", None),
        ("select a from t where a = 'x'''", None),
        ("select a from t where a = 'x''", Some(26)),
        ("select a from t where a = 'x\ny'", None),
        ("select a from t where a.b.c = 1", Some(25)),
        ("select a from t where a = -D", Some(26)),
        ("select a from t where a = - 1", Some(26)),
        ("select a from t where a = -1", None),
        ("select a from t where a = 1.", Some(27)),
        ("select a from t where a = 1.5.2", Some(29)),
        ("select a from t where a = .5", Some(26)),
        ("select a from t where a = 12abc", Some(28)),
        ("select a from t where a < > 1", Some(26)),
        ("select a from t where a => 1", Some(25)),
        ("select a from t where a != 1", Some(24)),
        ("select a from t where a = 1 or b = 2", Some(28)),
        ("select a from t group a", Some(22)),
        ("select a from t order by a group by a", Some(27)),
        ("select a from t group by a where a = 1", Some(27)),
        ("select a from t order by 1.5", Some(25)),
        ("select a from t order by -1", Some(25)),
        ("select a from t order by 0123456789", None),
        ("select a from t order by 12345678901", Some(25)),
        ("select a from t order by a desc asc", Some(32)),
        ("select aaaaaaaaaaaaaaaaaaaaaaaaaaaaaaaa from t", None),
        ("select aaaaaaaaaaaaaaaaaaaaaaaaaaaaaaaaa from t", Some(7)),
        ("select a_1 from t2", None),
        ("select _a from t", Some(7)),
        ("select a from t;", Some(15)),
    ] {
        let place = select_place(rt.alloc(), text.as_bytes())?;
        assert_eq!(rt; place, want, "of {text}");
    }
    let not_utf8 = select_place(rt.alloc(), b"select a from t where a = '\xff'")?;
    assert_eq!(rt; not_utf8, Some(26));
    Ok(())
}

// Whether a line ends before its byte 10.
fn is_one_line(line: &[u8]) -> bool
    ensures value { result ≡ has_no_end line.now }
{
    line.iter().all(|&byte| byte != 10)
}

fn line(alloc: Global, home: LineHome, text: &str) -> Result<Result<Option<Command>, u32>, Fail> {
    let bytes = text.as_bytes();
    if bytes.len() > 8192 || !is_one_line(bytes) {
        return Err(Fail::from("no line"));
    }
    match read_line(alloc, home, bytes) {
        Ok(command) => Ok(Ok(command)),
        Err(fault) if fault.why == SqlWhy::BadLine => Ok(Err(fault.place)),
        Err(_) => Err(Fail::from("memory")),
    }
}

// The place at which a line is refused, or none.
fn line_place(alloc: Global, home: LineHome, text: &str) -> Result<Option<u32>, Fail> {
    match line(alloc, home, text)? {
        Ok(_) => Ok(None),
        Err(place) => Ok(Some(place)),
    }
}

#[test]
fn lines_are_taken_or_refused_at_a_place(rt: HostRuntime) -> Result<(), Fail> {
    for (text, in_script, in_session) in [
        ("", None, None),
        (" \t ", None, None),
        (" \t# nothing", None, None),
        ("set pdqpriority 101", None, None),
        ("SET PDQPRIORITY OFF", None, None),
        ("Set PdqPriority Low", None, None),
        ("set pdqpriority high", None, None),
        ("set pdqpriority default", None, None),
        ("set pdqpriority 4294967296", None, None),
        ("set pdqpriority -1", Some(16), Some(16)),
        ("set pdqpriority", Some(15), Some(15)),
        ("set pdqpriority usual", Some(16), Some(16)),
        ("set priority 1", Some(4), Some(4)),
        ("query select a from t", None, None),
        ("query select a from order", Some(20), Some(20)),
        ("query", Some(5), Some(5)),
        ("select a from t", Some(0), Some(0)),
        ("cancel 3", None, None),
        ("onstat -g mgm", None, None),
        ("onstat -D mgm", Some(7), Some(7)),
        ("onstat -g", Some(9), Some(9)),
        ("onmode -D 50", None, None),
        ("onmode -M 5", None, None),
        ("onmode -Q 5", None, None),
        ("onmode -S 5", None, None),
        ("onmode -N 5", None, None),
        ("onmode -n 5", Some(7), Some(7)),
        ("onmode -g 1", Some(7), Some(7)),
        ("onmode -d 5", Some(7), Some(7)),
        ("onmode -D5", Some(7), Some(7)),
        ("onmode -Dx 5", Some(7), Some(7)),
        ("onmode -D'x'", Some(9), Some(9)),
        ("onmode -D", Some(9), Some(9)),
        ("claim 007 1", None, Some(0)),
        ("  claim 7 1", None, Some(2)),
        ("claim 7", Some(7), Some(0)),
        ("claim 7 1 1", Some(10), Some(0)),
        ("run 1", None, Some(0)),
        ("done 1", None, Some(0)),
        ("done 12345678901", Some(5), Some(0)),
        ("open user", None, Some(0)),
        ("open admin", None, Some(0)),
        ("open us", Some(5), Some(0)),
        ("use 2", None, Some(0)),
        ("close 2", None, Some(0)),
        ("hello", Some(0), None),
        ("hello you", Some(0), Some(6)),
        ("admin", Some(0), None),
        ("admin \r", Some(0), Some(6)),
        ("quit", Some(0), None),
        ("shutdown", Some(0), None),
    ] {
        let script = line_place(rt.alloc(), LineHome::Script, text)?;
        let session = line_place(rt.alloc(), LineHome::Session, text)?;
        assert_eq!(rt; script, in_script, "in a script of {text}");
        assert_eq!(rt; session, in_session, "in a session of {text}");
    }
    Ok(())
}

#[test]
fn lines_say(rt: HostRuntime) -> Result<(), Fail> {
    for (home, text, want) in [
        (
            LineHome::Script,
            "set pdqpriority 007",
            "SetPriority(Number(7))",
        ),
        (LineHome::Script, "set pdqpriority low", "SetPriority(Low)"),
        (LineHome::Script, "cancel 4294967296", "Cancel(4294967295)"),
        (
            LineHome::Script,
            "onmode -Q 9999999999",
            "Onmode { letter: Q, value: 4294967295 }",
        ),
        (
            LineHome::Script,
            "onmode -N 128",
            "Onmode { letter: N, value: 128 }",
        ),
        (
            LineHome::Script,
            "CLAIM 50 4",
            "Claim { priority: 50, frags: 4 }",
        ),
        (LineHome::Script, "run 1", "Run(1)"),
        (LineHome::Script, "done 2", "Done(2)"),
        (
            LineHome::Script,
            "open user",
            "OpenSession { admin: false }",
        ),
        (
            LineHome::Script,
            "open admin",
            "OpenSession { admin: true }",
        ),
        (LineHome::Script, "use 3", "Choose(3)"),
        (LineHome::Script, "close 4", "CloseSession(4)"),
        (LineHome::Session, "onstat -g MGM", "Onstat"),
        (LineHome::Session, "admin", "Admin"),
        (LineHome::Session, "shutdown", "Shutdown"),
    ] {
        let Ok(Some(command)) = line(rt.alloc(), home, text)? else {
            return Err(Fail::from("no command"));
        };
        let said = format!(in rt.alloc(); "{command:?}")?;
        assert_eq!(rt; said.as_str(), want);
    }
    Ok(())
}

#[test]
fn a_select_says(rt: HostRuntime) -> Result<(), Fail> {
    let ast: Ast = read_select(
        rt.alloc(),
        b"SELECT Shop, SUM(S.Amount) FROM s WHERE a = 'it''s' AND b >= -1.50 ORDER BY 2 DESC",
    )
    .map_err(|_| "a select")?;
    let [shop, total] = ast.items.as_slice() else {
        return Err(Fail::from("two items"));
    };
    assert_eq!(rt; (shop.place, total.place), (7, 13));
    match &total.form {
        AstForm::Sum(column) => assert_eq!(rt; column.column.bytes(), b"amount".as_slice()),
        _ => return Err(Fail::from("a sum")),
    }
    let [words, number] = ast.conds.as_slice() else {
        return Err(Fail::from("two conditions"));
    };
    match (&words.test, &number.test) {
        (
            AstTest::Literal(_, Compare::Eq, AstLiteral::Words(words)),
            AstTest::Literal(_, Compare::Ge, AstLiteral::Number(number)),
        ) => {
            assert_eq!(rt; words.bytes(), b"it's".as_slice());
            assert_eq!(rt; number.bytes(), b"-1.50".as_slice());
        }
        _ => return Err(Fail::from("two literals")),
    }
    let [key] = ast.keys.as_slice() else {
        return Err(Fail::from("one key"));
    };
    assert_eq!(rt; key.down, true);
    match key.order {
        AstOrder::Number(2) => Ok(()),
        _ => Err(Fail::from("by number")),
    }
}
