// Odd day files, and what is printed for each.
#![tactic(auto)]

#[cfg(test)]
mod tests {
    use cells::line::CutLine;
    use dayfile::entry::Entry;
    use dayfile::reader::UnreadFile;
    use dayfile::row::Row;
    use report::file::report;
    use std::alloc::AllocGlobal;
    use std::process::Abort;
    use std::test::Fail;

    // Behind the header, a file prints just these lines.
    fn file_prints(rt: &(impl Abort + AllocGlobal), file: &[u8], lines: &str) -> Result<(), Fail> {
        let heap = rt.alloc();
        let printed = report(heap, file)?;
        let expected = format!(in heap; "line,answer,p,q,r,s\n{lines}")?;
        assert_eq!(rt; printed.as_str(), expected.as_str());
        Ok(())
    }

    // The same of a file with the names in their usual order, and these bytes behind them.
    fn rows_print(rt: &(impl Abort + AllocGlobal), rows: &[u8], lines: &str) -> Result<(), Fail> {
        let mut file = b"call,unit,minute,from,to,kw,price\n".to_vec(rt.alloc())?;
        file.extend_from_slice(rows)?;
        file_prints(rt, file.as_slice(), lines)
    }

    #[test]
    fn line_ends(rt: HostRuntime) -> Result<(), Fail> {
        file_prints(&rt, b"", "1,21,1,-,-,-\n")?;
        file_prints(&rt, b"\n", "1,21,1,-,-,-\n")?;
        file_prints(&rt, b"\n\n", "1,21,1,-,-,-\n")?;
        file_prints(&rt, b"call,unit,minute,from,to,kw,price", "")?;
        rows_print(&rt, b"", "")?;
        rows_print(&rt, b"Q,0,-,12,-,-,-", "2,0,-,-,-,-\n")?;
        rows_print(&rt, b"Q,0,-,12,-,-,-\n", "2,0,-,-,-,-\n")?;
        rows_print(&rt, b"Q,0,-,12,-,-,-\n\n", "2,0,-,-,-,-\n3,23,1,-,-,-\n")?;
        rows_print(
            &rt,
            b"\n\nQ,0,-,12,-,-,-",
            "2,23,1,-,-,-\n3,23,1,-,-,-\n4,0,-,-,-,-\n",
        )?;
        rows_print(&rt, b"\n", "2,23,1,-,-,-\n")
    }

    #[test]
    fn names(rt: HostRuntime) -> Result<(), Fail> {
        file_prints(&rt, b"call", "1,21,2,-,-,-\n")?;
        file_prints(&rt, b"call,unit,minute,from,to,kw\n", "1,21,7,-,-,-\n")?;
        file_prints(&rt, b"call,unit,minute,from,to,kw,\n", "1,21,7,-,-,-\n")?;
        file_prints(
            &rt,
            b"call,unit,minute,from,to,kw,price,\n",
            "1,21,8,-,-,-\n",
        )?;
        file_prints(
            &rt,
            b"call,unit,minute,from,to,kw,price,call\n",
            "1,21,8,-,-,-\n",
        )?;
        file_prints(
            &rt,
            b"call,unit,minute,from,to,kw,price,more,more",
            "1,21,8,-,-,-\n",
        )?;
        file_prints(&rt, b"call,unit,unit,from,to,kw,price", "1,21,3,-,-,-\n")?;
        file_prints(&rt, b"call,unit,Minute,from,to,kw,price", "1,21,3,-,-,-\n")?;
        file_prints(&rt, b"call,call,x", "1,21,2,-,-,-\n")?;
        file_prints(&rt, b",call", "1,21,1,-,-,-\n")?;
        file_prints(&rt, b" call,unit,minute,from,to,kw,price", "1,21,1,-,-,-\n")?;
        file_prints(
            &rt,
            b"\xef\xbb\xbfcall,unit,minute,from,to,kw,price",
            "1,21,1,-,-,-\n",
        )?;
        file_prints(
            &rt,
            b"call,unit,minute,from,to,kw,price\r\n",
            "1,21,7,-,-,-\n",
        )?;
        file_prints(
            &rt,
            b"call;unit;minute;from;to;kw;price\nQ,0,-,12,-,-,-\n",
            "1,21,1,-,-,-\n",
        )
    }

    #[test]
    fn other_orders(rt: HostRuntime) -> Result<(), Fail> {
        file_prints(
            &rt,
            b"price,kw,to,from,minute,unit,call\n-,-,-,12,-,0,Q\n",
            "2,0,-,-,-,-\n",
        )?;
        file_prints(
            &rt,
            b"price,kw,to,from,minute,unit,call\nx,-,-,12,-,0,Q\n",
            "2,22,1,-,-,-\n",
        )?;
        file_prints(
            &rt,
            b"price,kw,to,from,minute,unit,call\nx,-,-,12,-,0,q\n",
            "2,22,7,-,-,-\n",
        )?;
        file_prints(
            &rt,
            b"unit,call,minute,from,to,kw,price\n0,R,-,-,-,5,6\n0,1,-840,-,-,-,8\n",
            "2,0,-,-,-,-\n3,0,-,-,-,-\n",
        )?;
        file_prints(
            &rt,
            b"unit,call,minute,from,to,kw,price\nR,0,-,-,-,5,6\n",
            "2,22,2,-,-,-\n",
        )
    }

    #[test]
    fn calls(rt: HostRuntime) -> Result<(), Fail> {
        rows_print(
            &rt,
            b"R,0,-,-,-,5,6\nF,0,1,2,3,4,5\n1,0,1,-,-,-,2\n",
            "2,0,-,-,-,-\n3,0,-,-,-,-\n4,0,-,-,-,-\n",
        )?;
        rows_print(
            &rt,
            b"2,0,1,-,-,-,2\n3,0,1,-,-,-,2\nQ,0,-,1,-,-,-\n",
            "2,0,-,-,-,-\n3,0,-,-,-,-\n4,0,-,-,-,-\n",
        )?;
        rows_print(
            &rt,
            b"4,0,1,-,-,-,2\nr,0,-,-,-,5,6\n,0,-,-,-,5,6\n",
            "2,22,1,-,-,-\n3,22,1,-,-,-\n4,22,1,-,-,-\n",
        )?;
        rows_print(
            &rt,
            b"-,0,-,-,-,5,6\nRR,0,-,-,-,5,6\nR ,0,-,-,-,5,6\n",
            "2,22,1,-,-,-\n3,22,1,-,-,-\n4,22,1,-,-,-\n",
        )?;
        rows_print(
            &rt,
            b"\x00,0,-,-,-,5,6\n\xd2,0,-,-,-,5,6\n",
            "2,22,1,-,-,-\n3,22,1,-,-,-\n",
        )
    }

    #[test]
    fn numbers(rt: HostRuntime) -> Result<(), Fail> {
        rows_print(&rt, b"R,-0,-,-,-,000050000,-999999999\n", "2,0,-,-,-,-\n")?;
        rows_print(
            &rt,
            b"R,--1,-,-,-,5,6\nR,+1,-,-,-,5,6\nR,-,-,-,-,5,6\n",
            "2,22,2,-,-,-\n3,22,2,-,-,-\n4,22,2,-,-,-\n",
        )?;
        rows_print(
            &rt,
            b"R,,-,-,-,5,6\nR,1 ,-,-,-,5,6\nR,0x1,-,-,-,5,6\n",
            "2,22,2,-,-,-\n3,22,2,-,-,-\n4,22,2,-,-,-\n",
        )?;
        rows_print(
            &rt,
            b"R,0,-,-,-,1234567890,6\nR,0,-,-,-,-1234567890,6\n",
            "2,22,6,-,-,-\n3,22,6,-,-,-\n",
        )?;
        rows_print(
            &rt,
            b"R,0,-,-,-,5,0000000000\nR,0,-,-,-,5,1.5\nR,0,-,-,-,5,6\r\n",
            "2,22,7,-,-,-\n3,22,7,-,-,-\n4,22,7,-,-,-\n",
        )?;
        rows_print(
            &rt,
            b"R,0,-,-,-,5,:\nR,0,-,-,-,5,/\nR,0,-,-,-,5,\x00\nR,0,-,-,-,5,\xb1\n",
            "2,22,7,-,-,-\n3,22,7,-,-,-\n4,22,7,-,-,-\n5,22,7,-,-,-\n",
        )
    }

    #[test]
    fn unused_cells(rt: HostRuntime) -> Result<(), Fail> {
        rows_print(
            &rt,
            b"R,0,1,-,-,5,6\nR,0,-,1,-,5,6\nR,0,-,-,1,5,6\n",
            "2,22,3,-,-,-\n3,22,4,-,-,-\n4,22,5,-,-,-\n",
        )?;
        rows_print(
            &rt,
            b"1,0,1,2,-,-,2\n2,0,1,-,2,-,2\n3,0,1,-,-,2,2\n",
            "2,22,4,-,-,-\n3,22,5,-,-,-\n4,22,6,-,-,-\n",
        )?;
        rows_print(
            &rt,
            b"Q,0,1,1,-,-,-\nQ,0,-,1,1,-,-\nQ,0,-,1,-,1,-\nQ,0,-,1,-,-,1\n",
            "2,22,3,-,-,-\n3,22,5,-,-,-\n4,22,6,-,-,-\n5,22,7,-,-,-\n",
        )?;
        rows_print(
            &rt,
            b"Q,0,,1,-,-,-\nQ,0,--,1,-,-,-\nQ,0, -,1,-,-,-\n",
            "2,22,3,-,-,-\n3,22,3,-,-,-\n4,22,3,-,-,-\n",
        )?;
        rows_print(
            &rt,
            b"F,-,1,2,3,4,5\nF,0,-,2,3,4,5\nF,0,1,-,3,4,5\nF,0,1,2,-,4,5\n",
            "2,22,2,-,-,-\n3,22,3,-,-,-\n4,22,4,-,-,-\n5,22,5,-,-,-\n",
        )?;
        rows_print(
            &rt,
            b"F,0,1,2,3,-,5\nF,0,1,2,3,4,-\n",
            "2,22,6,-,-,-\n3,22,7,-,-,-\n",
        )
    }

    #[test]
    fn cell_counts(rt: HostRuntime) -> Result<(), Fail> {
        rows_print(&rt, b"x,y\n", "2,23,2,-,-,-\n")?;
        rows_print(&rt, b"Q,0,-,12,-,-\n", "2,23,6,-,-,-\n")?;
        rows_print(&rt, b"Q,0,-,12,-,-,-,\n", "2,23,8,-,-,-\n")?;
        rows_print(&rt, b",,,,,,,,,,,\n", "2,23,12,-,-,-\n")?;
        rows_print(&rt, b",,,,,,\n", "2,22,1,-,-,-\n")?;
        rows_print(
            &rt,
            b"call,unit,minute,from,to,kw,price\n",
            "2,22,1,-,-,-\n",
        )
    }

    // A file of just this many bytes: the names and one long cell.
    fn file_of(rt: &(impl Abort + AllocGlobal), count: usize, lines: &str) -> Result<(), Fail> {
        let mut file = b"call,unit,minute,from,to,kw,price\n".to_vec(rt.alloc())?;
        file.resize(count, b'x')?;
        assert_eq!(rt; file.len(), count);
        file_prints(rt, file.as_slice(), lines)
    }

    #[test]
    fn longest(rt: HostRuntime) -> Result<(), Fail> {
        file_of(&rt, 65_536, "2,23,1,-,-,-\n")?;
        file_of(&rt, 65_537, "1,21,0,-,-,-\n")
    }

    // The names and line feeds, to the last byte that is taken: a line is printed for each.
    #[test]
    fn most_rows(rt: HostRuntime) -> Result<(), Fail> {
        let mut file = b"call,unit,minute,from,to,kw,price\n".to_vec(rt.alloc())?;
        file.resize(65_536, b'\n')?;
        let printed = report(rt.alloc(), file.as_slice())?;
        let line_feeds = printed.as_bytes().iter().filter(|b| **b == b'\n');
        assert_eq!(rt; line_feeds.count(), 65_503);
        Ok(())
    }

    // A file whose names are refused has no rows, though the refusal is not looked at.
    #[test]
    fn rows_of_refused_names(rt: HostRuntime) -> Result<(), Fail> {
        let mut rows = UnreadFile::new(b"call,unit\nQ,0,-,12,-,-,-\n").rows();
        assert!(rt; rows.next().is_none());
        Ok(())
    }

    // Each field of a row is read from the cell under its own name.
    #[test]
    fn fields(rt: HostRuntime) -> Result<(), Fail> {
        let mut rows = UnreadFile::new(
            b"price,kw,to,from,minute,unit,call\n6,5,4,3,-2,1,F\n",
        ).rows();
        let row = Row::File {
            unit: 1,
            minute: -2,
            from: 3,
            to: 4,
            kw: 5,
            price: 6,
        };
        assert_eq!(rt;
            rows.next(),
            Some(Entry {
                line: 2,
                row: Ok(row)
            })
        );
        Ok(())
    }

    // A cell's offset counts from the first byte of the file.
    #[test]
    fn offsets(rt: HostRuntime) -> Result<(), Fail> {
        let cut = CutLine::<'_, 2>::cut(b"ab\nc,de,f", 3);
        assert_eq!(rt; cut.count(), 3);
        let Some(cell) = cut.cell(1) else {
            panic!(rt; "the line has no second cell");
        };
        assert_eq!(rt; cell.at, 5);
        assert_eq!(rt; cell.bytes, b"de".as_slice());
        assert!(rt; cut.cell(2).is_none());
        Ok(())
    }
}
