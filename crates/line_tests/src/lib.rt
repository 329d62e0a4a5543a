// What lines say and how answers look, by examples. They stand apart from the crates that they try, since a
// crate with tests is proved twice.
#![tactic(auto)]

#[cfg(test)]
mod tests {
    use line_reader::read_request;
    use line_writer::{ROW, ShortRow, write_list, write_no, write_ok, write_open};
    use logs::{Body, Log, Place, Rest, Species};

    // The number and the position of the refusal, or 0 twice.
    fn refusal(line: &[u8]) -> (u8, u8) {
        read_request(line)
            .err()
            .map_or((0, 0), |refused| (refused.number(), refused.position()))
    }

    #[test]
    fn limits_are_within(rt: HostRuntime) {
        assert_eq!(rt; refusal(b"LOG\t1\tS\t80\t100\t1\tYARD"), (0, 0));
        assert_eq!(rt;
            refusal(b"LOG\t4294967295\tD\t1200\t1500\t200\tSAW"),
            (0, 0)
        );
        assert_eq!(rt; refusal(b"LOG\t7\tP\t79\t100\t1\tYARD"), (14, 3));
        assert_eq!(rt; refusal(b"ARRIVE\t7\tP\t1201\t100\t1"), (14, 3));
    }

    #[test]
    fn lines_end_at_200_bytes(rt: HostRuntime) {
        assert_eq!(rt; refusal(&[b'A'; 200]), (11, 0));
        assert_eq!(rt; refusal(&[b'A'; 201]), (10, 0));
    }

    #[test]
    fn odd_bytes(rt: HostRuntime) {
        assert_eq!(rt; refusal(b""), (11, 0));
        assert_eq!(rt; refusal(b"FIND\t\xff"), (13, 1));
        assert_eq!(rt; refusal(b"FIND\t07"), (13, 1));
    }

    #[test]
    fn answers_are_lines(rt: HostRuntime) {
        let mut row = [0u8; ROW];
        assert_eq!(rt; write_no(&mut row, 14, 3), Ok(8));
        assert_eq!(rt; &row[0..9], b"NO\t14\t3\n\0".as_slice());
        assert_eq!(rt; write_ok(&mut [0u8; 8], 7), Err(ShortRow {}));
    }

    const LARGEST: Log = Log {
        tag: 4294967295,
        rest: Rest {
            body: Body {
                species: Species::Douglas,
                diameter: 1200,
                length: 1500,
                bay: 200,
            },
            place: Place::AtSaw,
        },
    };

    #[test]
    fn lists_end_with_their_number(rt: HostRuntime) {
        let mut row = [0u8; ROW];
        assert_eq!(rt; write_list(&mut row, &[LARGEST], true), Ok(43));
        assert_eq!(rt;
            &row[0..35],
            b"LOG\t4294967295\tD\t1200\t1500\t200\tSAW\n".as_slice()
        );
        assert_eq!(rt; &row[35..44], b"END\t1\t1\n\0".as_slice());
        assert_eq!(rt; write_list(&mut row, &[LARGEST; 101], false), Ok(3510));
    }

    #[test]
    fn open_tells_the_logs_present(rt: HostRuntime) {
        let mut row = [0u8; ROW];
        assert_eq!(rt; write_open(&mut row, 240), Ok(9));
        assert_eq!(rt; &row[0..10], b"OPEN\t240\n\0".as_slice());
    }
}
