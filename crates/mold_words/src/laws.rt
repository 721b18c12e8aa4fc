//! Laws of the command line: what `clap` accepts, and which orders the arguments give.
ghost use Rattle.std.specs.Prelude.{◌≡◌, ◌↔◌, ℕ, [], ◌∷◌, IfSome, IsTrue, List, None, Some, codes, false, true};
ghost use Rattle.std.specs.Net.Addr.{octets_of};
ghost use Rattle.std.specs.Net.Grammar.{IsColonHex};
ghost use Rattle.clap.specs.Words.{Text, fault_of, subcommand_of};
ghost use Rattle.clap.specs.declared.error.kind.ErrorKind.TheVariants.{DisplayHelp, DisplayVersion};
ghost use Rattle.clap.specs.declared.error.kind.ErrorKind.TheVariants.{MissingRequiredArgument, UnknownArgument};
ghost use Rattle.mold_frame.specs.declared.ip_address.IpAddress.TheVariants.{V4, V6};
ghost use Rattle.mold_input.specs.declared.message_format.MessageFormat.TheVariants.{Lines, Blocks, BlocksToEmpty};
ghost use Rattle.mold_words.specs.Orders.{AreTaken, Say, order_of};
ghost use Rattle.mold_words.specs.declared.extract_form.ExtractForm.TheVariants.{Blocks as blocks_written};
ghost use Rattle.mold_words.specs.declared.extract_form.ExtractForm.TheVariants.{Lines as lines_written};
ghost use Rattle.mold_words.specs.Arguments.{check_wanted, close_wanted, dump_wanted, each_judged, extract_wanted};
ghost use Rattle.mold_words.specs.Arguments.{feed_wanted};
ghost use Rattle.mold_words.specs.Arguments.{from_captures, from_folder, from_lines, saved_judged, whole_judged};
ghost use Rattle.mold_words.specs.Arguments.{listen_wanted, loop_wanted, sessions_wanted, show_captures_wanted};
ghost use Rattle.mold_words.specs.IpAddresses.{ipv6_of};
ghost use Rattle.mold_words.specs.Arguments.{pack_journal_wanted, pack_wanted, publish_wanted, receive_wanted};
ghost use Rattle.mold_words.specs.Arguments.{record_wanted, serve_wanted, show_wanted, sim_wanted, upgrade_wanted};
ghost use Rattle.mold_words.specs.LinePorts.{bound_to, opened_as};
ghost use Rattle.mold_words.specs.Words.{is_command, mold_app};

/// `show` is accepted, and asks to show packets, as `--` alone does. `show --request` is accepted, and asks to show
/// requests. `--capture F` asks to show the packets of the capture `F`, and `--session` to show those of one session.
/// With `--capture`, `--request` is refused. Without it, `--session` is refused.
pub fn show_taken_law()
    ensures plain { Say (codes "show" ∷ []) (show_wanted false) }
    ensures request { Say (codes "show" ∷ codes "--request" ∷ []) (show_wanted true) }
    ensures no_command { Say (codes "--" ∷ []) (show_wanted false) }
    ensures captures { Say
        (codes "show" ∷ codes "--session" ∷ codes "MKT" ∷ codes "--capture" ∷ codes "F" ∷ [])
        (show_captures_wanted (record {
          captures = codes "F" ∷ [];
          ports = [];
          groups = [];
          session = Some (codes "MKT       ");
        })) }
    ensures request_of_captures { order_of
        (codes "show" ∷ codes "--request" ∷ codes "--capture" ∷ codes "F" ∷ []) ≡ None }
    ensures filter { order_of (codes "show" ∷ codes "--session" ∷ codes "MKT" ∷ []) ≡ None }
{}

/// `pack --session MKT` is accepted, and asks to pack the session `MKT`, padded with seven spaces, into datagrams of up
/// to 1,400 bytes. Its input is lines. `--limit` sets another limit. A limit below 64 is refused. `--blocks` asks to
/// read blocks, and together with `--end-at-empty` to read blocks up to the first empty one. `--end-at-empty` without
/// `--blocks` is refused. `--journal J` asks to save the messages as a journal in `J`, in each of these formats.
pub fn pack_taken_law()
    ensures usual { Say (codes "pack" ∷ codes "--session" ∷ codes "MKT" ∷ [])
        (pack_wanted (codes "MKT       ") 1400 Lines) }
    ensures limit { Say
        (codes "pack" ∷ codes "--session" ∷ codes "SESSION001" ∷ codes "--limit" ∷ codes "64" ∷ [])
        (pack_wanted (codes "SESSION001") 64 Lines) }
    ensures small { order_of
        (codes "pack" ∷ codes "--session" ∷ codes "MKT" ∷ codes "--limit" ∷ codes "63" ∷ []) ≡ None }
    ensures blocks { Say (codes "pack" ∷ codes "--blocks" ∷ codes "--session" ∷ codes "MKT" ∷ [])
        (pack_wanted (codes "MKT       ") 1400 Blocks) }
    ensures to_empty { Say
        (codes "pack" ∷ codes "--session" ∷ codes "MKT" ∷ codes "--end-at-empty" ∷ codes "--blocks" ∷ [])
        (pack_wanted (codes "MKT       ") 1400 BlocksToEmpty) }
    ensures no_blocks { order_of
        (codes "pack" ∷ codes "--session" ∷ codes "MKT" ∷ codes "--end-at-empty" ∷ []) ≡ None }
    ensures journal { Say
        (codes "pack" ∷ codes "--journal" ∷ codes "J" ∷ codes "--session" ∷ codes "MKT" ∷ [])
        (pack_journal_wanted (codes "MKT       ") 1400 Lines (codes "J")) }
    ensures journal_of_blocks { Say
        (codes "pack" ∷ codes "--session" ∷ codes "SESSION001" ∷ codes "--limit" ∷ codes "64" ∷ codes "--blocks"
        ∷ codes "--journal" ∷ codes "J" ∷ [])
        (pack_journal_wanted (codes "SESSION001") 64 Blocks (codes "J")) }
    ensures journal_to_empty { Say
        (codes "pack" ∷ codes "--end-at-empty" ∷ codes "--blocks" ∷ codes "--session" ∷ codes "MKT"
        ∷ codes "--journal" ∷ codes "J" ∷ [])
        (pack_journal_wanted (codes "MKT       ") 1400 BlocksToEmpty (codes "J")) }
{}

/// `sim --session MKT` is accepted, and asks for two receivers of the session `MKT`. The windows are 1,024 messages,
/// the limits are 1,400 bytes, and a request has one response. Each option replaces its default. A `--limit` above the
/// server's limit is refused.
pub fn sim_taken_law()
    ensures usual { Say (codes "sim" ∷ codes "--session" ∷ codes "MKT" ∷ [])
        (sim_wanted (record {
          session = codes "MKT       ";
          limit = 1400;
          server_limit = 1400;
          window = 1024;
          receivers = 2;
          burst = 1;
        })) }
    ensures given { Say
        (codes "sim" ∷ codes "--session" ∷ codes "MKT" ∷ codes "--limit" ∷ codes "64"
        ∷ codes "--server-limit" ∷ codes "65507" ∷ codes "--window" ∷ codes "4" ∷ codes "--receivers" ∷ codes "8"
        ∷ codes "--burst" ∷ codes "3" ∷ [])
        (sim_wanted (record {
          session = codes "MKT       ";
          limit = 64;
          server_limit = 65507;
          window = 4;
          receivers = 8;
          burst = 3;
        })) }
    ensures above { order_of
        (codes "sim" ∷ codes "--session" ∷ codes "MKT" ∷ codes "--limit" ∷ codes "1401" ∷ []) ≡ None }
{}

/// `check DIR` is accepted, and asks to check the folder `DIR` as one session. `check -` asks to check lines, and
/// `check ./-` to check the folder of that name. `check --capture F` asks to check the capture `F`, and `--port` and
/// `--group` to check the datagrams that are sent to this port and this address. Each of these options may be given
/// several times. Refused are a command without a folder and a capture, both of them together, `--port` without a
/// capture, and the port 0.
pub fn check_taken_law()
    ensures folder { Say (codes "check" ∷ codes "DIR" ∷ [])
        (check_wanted (record { input = from_folder (codes "DIR"); judging = whole_judged false })) }
    ensures lines { Say (codes "check" ∷ codes "-" ∷ [])
        (check_wanted (record { input = from_lines; judging = whole_judged false })) }
    ensures dash { Say (codes "check" ∷ codes "./-" ∷ [])
        (check_wanted (record { input = from_folder (codes "./-"); judging = whole_judged false })) }
    ensures captures { Say
        (codes "check" ∷ codes "--capture" ∷ codes "F" ∷ codes "--port" ∷ codes "26477" ∷ codes "--group"
        ∷ codes "239.192.1.1" ∷ [])
        (check_wanted (record {
          input = from_captures (record {
            captures = codes "F" ∷ [];
            ports = 26477 ∷ [];
            groups = V4 (239 ∷ 192 ∷ 1 ∷ 1 ∷ []) ∷ [];
            session = None;
          });
          judging = whole_judged false;
        })) }
    ensures several { Say
        (codes "check" ∷ codes "--group" ∷ codes "ff02::1" ∷ codes "--capture" ∷ codes "F" ∷ codes "--port" ∷ codes "1"
        ∷ codes "--capture" ∷ codes "-" ∷ codes "--port" ∷ codes "65535" ∷ codes "--session" ∷ codes "MKT"
        ∷ codes "--group" ∷ codes "10.0.0.1" ∷ [])
        (check_wanted (record {
          input = from_captures (record {
            captures = codes "F" ∷ codes "-" ∷ [];
            ports = 1 ∷ 65535 ∷ [];
            groups = V6 (255 ∷ 2 ∷ 0 ∷ 0 ∷ 0 ∷ 0 ∷ 0 ∷ 0 ∷ 0 ∷ 0 ∷ 0 ∷ 0 ∷ 0 ∷ 0 ∷ 0 ∷ 1 ∷ [])
                ∷ V4 (10 ∷ 0 ∷ 0 ∷ 1 ∷ []) ∷ [];
            session = Some (codes "MKT       ");
          });
          judging = whole_judged false;
        })) }
    ensures no_input { order_of (codes "check" ∷ []) ≡ None }
    ensures both { order_of (codes "check" ∷ codes "DIR" ∷ codes "--capture" ∷ codes "F" ∷ []) ≡ None }
    ensures filter { order_of (codes "check" ∷ codes "--port" ∷ codes "1" ∷ codes "DIR" ∷ []) ≡ None }
    ensures zero { order_of
        (codes "check" ∷ codes "--capture" ∷ codes "F" ∷ codes "--port" ∷ codes "0" ∷ []) ≡ None }
{}

/// `check --journal J` is accepted with a folder, lines or captures, and asks to save the messages as a journal in
/// `J`. `--each` asks to check each session by itself, and `--digest` to keep digests of messages. They may be given
/// together, and together with `--session`. `--journal` with `--each` is refused, and so is `--journal` with
/// `--digest`.
pub fn judging_taken_law()
    ensures saved { Say (codes "check" ∷ codes "DIR" ∷ codes "--journal" ∷ codes "J" ∷ [])
        (check_wanted (record { input = from_folder (codes "DIR"); judging = saved_judged (codes "J") })) }
    ensures saved_lines { Say (codes "check" ∷ codes "--journal" ∷ codes "J" ∷ codes "-" ∷ [])
        (check_wanted (record { input = from_lines; judging = saved_judged (codes "J") })) }
    ensures saved_captures { Say
        (codes "check" ∷ codes "--journal" ∷ codes "J" ∷ codes "--capture" ∷ codes "F" ∷ [])
        (check_wanted (record {
          input = from_captures (record { captures = codes "F" ∷ []; ports = []; groups = []; session = None });
          judging = saved_judged (codes "J");
        })) }
    ensures each { Say (codes "check" ∷ codes "--each" ∷ codes "-" ∷ [])
        (check_wanted (record { input = from_lines; judging = each_judged false })) }
    ensures digest { Say (codes "check" ∷ codes "DIR" ∷ codes "--digest" ∷ [])
        (check_wanted (record { input = from_folder (codes "DIR"); judging = whole_judged true })) }
    ensures each_digest { Say
        (codes "check" ∷ codes "--digest" ∷ codes "--capture" ∷ codes "F" ∷ codes "--session" ∷ codes "MKT"
        ∷ codes "--each" ∷ [])
        (check_wanted (record {
          input = from_captures (record {
            captures = codes "F" ∷ [];
            ports = [];
            groups = [];
            session = Some (codes "MKT       ");
          });
          judging = each_judged true;
        })) }
    ensures journal_each { order_of
        (codes "check" ∷ codes "DIR" ∷ codes "--journal" ∷ codes "J" ∷ codes "--each" ∷ []) ≡ None }
    ensures journal_digest { order_of
        (codes "check" ∷ codes "DIR" ∷ codes "--digest" ∷ codes "--journal" ∷ codes "J" ∷ []) ≡ None }
{}

/// `extract DIR --to M --blocks` is accepted, and asks to write all messages of the datagrams in the folder `DIR` to
/// the file `M`, as blocks. `--lines` asks to write lines. The input may also be lines or captures, as for `check`.
/// `--from` sets another first message, and `--count` a maximum number, each without the other too. `--to` is
/// required, and exactly one of `--blocks` and `--lines`. Refused are `--from 0`, a count that does not fit 64 bits,
/// and a command without a folder and a capture. There is no `--journal`.
pub fn extract_taken_law()
    ensures blocks { Say (codes "extract" ∷ codes "DIR" ∷ codes "--to" ∷ codes "M" ∷ codes "--blocks" ∷ [])
        (extract_wanted (record {
          input = from_folder (codes "DIR");
          to = codes "M";
          form = blocks_written;
          from = 1;
          count = 18446744073709551615;
        })) }
    ensures lines { Say
        (codes "extract" ∷ codes "--lines" ∷ codes "--count" ∷ codes "0" ∷ codes "--to" ∷ codes "M" ∷ codes "-" ∷ [])
        (extract_wanted (record {
          input = from_lines;
          to = codes "M";
          form = lines_written;
          from = 1;
          count = 0;
        })) }
    ensures captures { Say
        (codes "extract" ∷ codes "--capture" ∷ codes "F" ∷ codes "--port" ∷ codes "26477" ∷ codes "--from"
        ∷ codes "18446744073709551615" ∷ codes "--to" ∷ codes "M" ∷ codes "--blocks" ∷ [])
        (extract_wanted (record {
          input = from_captures (record { captures = codes "F" ∷ []; ports = 26477 ∷ []; groups = []; session = None });
          to = codes "M";
          form = blocks_written;
          from = 18446744073709551615;
          count = 18446744073709551615;
        })) }
    ensures no_form { order_of (codes "extract" ∷ codes "DIR" ∷ codes "--to" ∷ codes "M" ∷ []) ≡ None }
    ensures both_forms { order_of
        (codes "extract" ∷ codes "DIR" ∷ codes "--to" ∷ codes "M" ∷ codes "--blocks" ∷ codes "--lines" ∷ []) ≡ None }
    ensures zero { order_of
        (codes "extract" ∷ codes "DIR" ∷ codes "--to" ∷ codes "M" ∷ codes "--lines" ∷ codes "--from" ∷ codes "0" ∷ [])
        ≡ None }
    ensures above { order_of
        (codes "extract" ∷ codes "DIR" ∷ codes "--to" ∷ codes "M" ∷ codes "--lines" ∷ codes "--count"
        ∷ codes "18446744073709551616" ∷ []) ≡ None }
    ensures no_input { order_of (codes "extract" ∷ codes "--to" ∷ codes "M" ∷ codes "--blocks" ∷ []) ≡ None }
    ensures no_file { fault_of mold_app (codes "extract" ∷ codes "DIR" ∷ codes "--blocks" ∷ [])
        ≡ MissingRequiredArgument ∷ [] }
    ensures journal { fault_of mold_app
        (codes "extract" ∷ codes "DIR" ∷ codes "--to" ∷ codes "M" ∷ codes "--blocks" ∷ codes "--journal" ∷ codes "J"
        ∷ []) ≡ UnknownArgument ∷ [] }
{}

/// `sessions --capture F` is accepted, and asks to list the sessions of the capture `F`. `--capture` is required, and
/// standard input can be given only once. There is no `--session`.
pub fn sessions_taken_law()
    ensures usual { Say (codes "sessions" ∷ codes "--capture" ∷ codes "F" ∷ [])
        (sessions_wanted (record { captures = codes "F" ∷ []; ports = []; groups = []; session = None })) }
    ensures alone { fault_of mold_app (codes "sessions" ∷ []) ≡ MissingRequiredArgument ∷ [] }
    ensures twice { order_of
        (codes "sessions" ∷ codes "--capture" ∷ codes "-" ∷ codes "--capture" ∷ codes "-" ∷ []) ≡ None }
    ensures session { fault_of mold_app
        (codes "sessions" ∷ codes "--capture" ∷ codes "F" ∷ codes "--session" ∷ codes "MKT" ∷ [])
        ≡ UnknownArgument ∷ [] }
{}

/// A text gives the bytes of an IPv6 address exactly when it writes this address: with eight groups, or with fewer and
/// `::`. An IPv4 address may replace the last two groups. `--group` accepts these texts.
pub fn ipv6_text_law()
    ensures { (text bytes : List ℕ) → (ipv6_of text ≡ Some bytes)
        ↔ ((segments : List ℕ) × IsColonHex text segments × (bytes ≡ octets_of segments)) }
{}

/// `publish --session MKT --a .. --b .. --journal J` is accepted, and asks to send the session `MKT` to these addresses
/// and to save its journal in `J`. Datagrams have up to 1,400 bytes. One heartbeat and one end packet follow the
/// messages. The input is lines. An address with a leading zero in a number is refused. `--blocks` asks to read blocks,
/// and together with `--end-at-empty` to read blocks up to the first empty one. `--end-at-empty` without `--blocks` is
/// refused.
pub fn publish_taken_law()
    ensures usual { Say
        (codes "publish" ∷ codes "--session" ∷ codes "MKT" ∷ codes "--a" ∷ codes "127.0.0.1:9000"
        ∷ codes "--b" ∷ codes "10.20.30.255:0" ∷ codes "--journal" ∷ codes "J" ∷ [])
        (publish_wanted (record {
          session = codes "MKT       ";
          limit = 1400;
          a = (127 ∷ 0 ∷ 0 ∷ 1 ∷ [], 9000);
          b = (10 ∷ 20 ∷ 30 ∷ 255 ∷ [], 0);
          journal = codes "J";
          beats = 1;
          ends = 1;
          input = Lines;
        })) }
    ensures blocks { Say
        (codes "publish" ∷ codes "--session" ∷ codes "MKT" ∷ codes "--a" ∷ codes "0.0.0.0:0"
        ∷ codes "--b" ∷ codes "0.0.0.0:0" ∷ codes "--journal" ∷ codes "J" ∷ codes "--blocks" ∷ [])
        (publish_wanted (record {
          session = codes "MKT       ";
          limit = 1400;
          a = (0 ∷ 0 ∷ 0 ∷ 0 ∷ [], 0);
          b = (0 ∷ 0 ∷ 0 ∷ 0 ∷ [], 0);
          journal = codes "J";
          beats = 1;
          ends = 1;
          input = Blocks;
        })) }
    ensures to_empty { Say
        (codes "publish" ∷ codes "--blocks" ∷ codes "--end-at-empty" ∷ codes "--session" ∷ codes "MKT"
        ∷ codes "--a" ∷ codes "0.0.0.0:0" ∷ codes "--b" ∷ codes "0.0.0.0:0" ∷ codes "--journal" ∷ codes "J" ∷ [])
        (publish_wanted (record {
          session = codes "MKT       ";
          limit = 1400;
          a = (0 ∷ 0 ∷ 0 ∷ 0 ∷ [], 0);
          b = (0 ∷ 0 ∷ 0 ∷ 0 ∷ [], 0);
          journal = codes "J";
          beats = 1;
          ends = 1;
          input = BlocksToEmpty;
        })) }
    ensures no_blocks { order_of
        (codes "publish" ∷ codes "--end-at-empty" ∷ codes "--session" ∷ codes "MKT" ∷ codes "--a"
        ∷ codes "0.0.0.0:0" ∷ codes "--b" ∷ codes "0.0.0.0:0" ∷ codes "--journal" ∷ codes "J" ∷ []) ≡ None }
    ensures zero { order_of
        (codes "publish" ∷ codes "--session" ∷ codes "MKT" ∷ codes "--a" ∷ codes "127.0.0.01:9000"
        ∷ codes "--b" ∷ codes "127.0.0.1:9001" ∷ codes "--journal" ∷ codes "J" ∷ []) ≡ None }
{}

/// `feed --session MKT --a .. --journal J` is accepted, and asks to keep the session `MKT` in `J` and to send it to
/// this address, in datagrams of up to 1,400 bytes from 0.0.0.0. A heartbeat is sent after a second, one heartbeat
/// and one end packet follow the messages, and no request is received. With `--bind`, requests are responded to for
/// ten more seconds after the input has ended, unless `--linger` sets another time. Each option replaces its default.
/// `--blocks` together with `--end-at-empty` asks to read blocks up to the first empty one. `--end-at-empty` without
/// `--blocks` is refused, and so is `--interface-b` without `--b`.
pub fn feed_taken_law()
    ensures usual { Say
        (codes "feed" ∷ codes "--session" ∷ codes "MKT" ∷ codes "--a" ∷ codes "239.192.1.1:26477"
        ∷ codes "--journal" ∷ codes "J" ∷ [])
        (feed_wanted (record {
          session = codes "MKT       ";
          limit = 1400;
          lines = record {
            a = (239 ∷ 192 ∷ 1 ∷ 1 ∷ [], 26477);
            b = None;
            interface_a = 0 ∷ 0 ∷ 0 ∷ 0 ∷ [];
            interface_b = 0 ∷ 0 ∷ 0 ∷ 0 ∷ [];
            ttl = 1;
          };
          journal = codes "J";
          append = false;
          bind = None;
          burst = 1;
          times = record { idle = 1000; rate = 0; linger = 0 };
          input = Lines;
          beats = 1;
          ends = 1;
          stays_open = false;
        })) }
    ensures served { Say
        (codes "feed" ∷ codes "--bind" ∷ codes "127.0.0.1:9003" ∷ codes "--session" ∷ codes "MKT" ∷ codes "--a"
        ∷ codes "127.0.0.1:9001" ∷ codes "--journal" ∷ codes "J" ∷ codes "--open" ∷ codes "--blocks" ∷ [])
        (feed_wanted (record {
          session = codes "MKT       ";
          limit = 1400;
          lines = record {
            a = (127 ∷ 0 ∷ 0 ∷ 1 ∷ [], 9001);
            b = None;
            interface_a = 0 ∷ 0 ∷ 0 ∷ 0 ∷ [];
            interface_b = 0 ∷ 0 ∷ 0 ∷ 0 ∷ [];
            ttl = 1;
          };
          journal = codes "J";
          append = false;
          bind = Some (127 ∷ 0 ∷ 0 ∷ 1 ∷ [], 9003);
          burst = 1;
          times = record { idle = 1000; rate = 0; linger = 10000 };
          input = Blocks;
          beats = 1;
          ends = 1;
          stays_open = true;
        })) }
    ensures given { Say
        (codes "feed" ∷ codes "--session" ∷ codes "MKT" ∷ codes "--limit" ∷ codes "64" ∷ codes "--a"
        ∷ codes "239.192.1.1:26477" ∷ codes "--b" ∷ codes "239.192.1.2:26477" ∷ codes "--interface-a"
        ∷ codes "10.0.0.7" ∷ codes "--interface-b" ∷ codes "10.0.1.7" ∷ codes "--ttl" ∷ codes "255" ∷ codes "--journal"
        ∷ codes "J" ∷ codes "--append" ∷ codes "--bind" ∷ codes "0.0.0.0:26400" ∷ codes "--burst" ∷ codes "64"
        ∷ codes "--rate" ∷ codes "10000000" ∷ codes "--idle" ∷ codes "60000" ∷ codes "--beats" ∷ codes "2"
        ∷ codes "--ends" ∷ codes "3" ∷ codes "--linger" ∷ codes "86400000" ∷ codes "--blocks" ∷ codes "--end-at-empty"
        ∷ [])
        (feed_wanted (record {
          session = codes "MKT       ";
          limit = 64;
          lines = record {
            a = (239 ∷ 192 ∷ 1 ∷ 1 ∷ [], 26477);
            b = Some (239 ∷ 192 ∷ 1 ∷ 2 ∷ [], 26477);
            interface_a = 10 ∷ 0 ∷ 0 ∷ 7 ∷ [];
            interface_b = 10 ∷ 0 ∷ 1 ∷ 7 ∷ [];
            ttl = 255;
          };
          journal = codes "J";
          append = true;
          bind = Some (0 ∷ 0 ∷ 0 ∷ 0 ∷ [], 26400);
          burst = 64;
          times = record { idle = 60000; rate = 10000000; linger = 86400000 };
          input = BlocksToEmpty;
          beats = 2;
          ends = 3;
          stays_open = false;
        })) }
    ensures no_blocks { order_of
        (codes "feed" ∷ codes "--session" ∷ codes "MKT" ∷ codes "--a" ∷ codes "127.0.0.1:9001" ∷ codes "--journal"
        ∷ codes "J" ∷ codes "--end-at-empty" ∷ []) ≡ None }
    ensures no_line { order_of
        (codes "feed" ∷ codes "--session" ∷ codes "MKT" ∷ codes "--a" ∷ codes "127.0.0.1:9001" ∷ codes "--journal"
        ∷ codes "J" ∷ codes "--interface-b" ∷ codes "10.0.1.7" ∷ []) ≡ None }
{}

/// `serve --journal J --bind ..` is accepted, and asks to respond from the journal in `J` and to make 1,000 receives. A
/// request has one response, of up to 1,400 bytes. `--live` asks to write text at the end of each turn. `--follow` asks
/// to read new records, without end unless `--turns` is given.
pub fn serve_taken_law()
    ensures usual { Say
        (codes "serve" ∷ codes "--journal" ∷ codes "J" ∷ codes "--bind" ∷ codes "0.0.0.0:65535" ∷ [])
        (serve_wanted (record {
          journal = codes "J";
          follow = false;
          limit = 1400;
          burst = 1;
          bind = (0 ∷ 0 ∷ 0 ∷ 0 ∷ [], 65535);
          turns = Some 1000;
          live = false;
        })) }
    ensures live { Say
        (codes "serve" ∷ codes "--live" ∷ codes "--journal" ∷ codes "J" ∷ codes "--bind" ∷ codes "0.0.0.0:0" ∷ [])
        (serve_wanted (record {
          journal = codes "J";
          follow = false;
          limit = 1400;
          burst = 1;
          bind = (0 ∷ 0 ∷ 0 ∷ 0 ∷ [], 0);
          turns = Some 1000;
          live = true;
        })) }
    ensures follow { Say
        (codes "serve" ∷ codes "--follow" ∷ codes "--journal" ∷ codes "J" ∷ codes "--bind" ∷ codes "0.0.0.0:0" ∷ [])
        (serve_wanted (record {
          journal = codes "J";
          follow = true;
          limit = 1400;
          burst = 1;
          bind = (0 ∷ 0 ∷ 0 ∷ 0 ∷ [], 0);
          turns = None;
          live = false;
        })) }
    ensures bounded { Say
        (codes "serve" ∷ codes "--journal" ∷ codes "J" ∷ codes "--bind" ∷ codes "0.0.0.0:0" ∷ codes "--turns"
        ∷ codes "7" ∷ codes "--follow" ∷ [])
        (serve_wanted (record {
          journal = codes "J";
          follow = true;
          limit = 1400;
          burst = 1;
          bind = (0 ∷ 0 ∷ 0 ∷ 0 ∷ [], 0);
          turns = Some 7;
          live = false;
        })) }
{}

/// `listen --session MKT --a .. --b .. --server ..` is accepted, and asks to print the session `MKT` from message 1
/// on. The window has 1,024 messages, a request has one response, and there are at most 1,000 turns. `--live` asks to
/// write text at the end of each turn, `--report` for reports of both lines, and `--blocks` for messages as blocks.
/// Together with `--end-at-empty` it asks for blocks with an empty block as the mark of the end. `--end-at-empty`
/// without `--blocks` is refused.
pub fn listen_taken_law()
    ensures usual { Say
        (codes "listen" ∷ codes "--session" ∷ codes "MKT" ∷ codes "--a" ∷ codes "127.0.0.1:9000"
        ∷ codes "--b" ∷ codes "127.0.0.1:9001" ∷ codes "--server" ∷ codes "127.0.0.1:9002" ∷ [])
        (listen_wanted (record {
          session = codes "MKT       ";
          next = 1;
          window = 1024;
          a = (127 ∷ 0 ∷ 0 ∷ 1 ∷ [], 9000);
          b = (127 ∷ 0 ∷ 0 ∷ 1 ∷ [], 9001);
          server = (127 ∷ 0 ∷ 0 ∷ 1 ∷ [], 9002);
          burst = 1;
          turns = 1000;
          live = false;
          report = false;
          output = Lines;
        })) }
    ensures live { Say
        (codes "listen" ∷ codes "--session" ∷ codes "MKT" ∷ codes "--a" ∷ codes "0.0.0.0:0"
        ∷ codes "--b" ∷ codes "0.0.0.0:0" ∷ codes "--server" ∷ codes "0.0.0.0:0" ∷ codes "--live" ∷ [])
        (listen_wanted (record {
          session = codes "MKT       ";
          next = 1;
          window = 1024;
          a = (0 ∷ 0 ∷ 0 ∷ 0 ∷ [], 0);
          b = (0 ∷ 0 ∷ 0 ∷ 0 ∷ [], 0);
          server = (0 ∷ 0 ∷ 0 ∷ 0 ∷ [], 0);
          burst = 1;
          turns = 1000;
          live = true;
          report = false;
          output = Lines;
        })) }
    ensures report { Say
        (codes "listen" ∷ codes "--report" ∷ codes "--session" ∷ codes "MKT" ∷ codes "--a" ∷ codes "0.0.0.0:0"
        ∷ codes "--b" ∷ codes "0.0.0.0:0" ∷ codes "--server" ∷ codes "0.0.0.0:0" ∷ [])
        (listen_wanted (record {
          session = codes "MKT       ";
          next = 1;
          window = 1024;
          a = (0 ∷ 0 ∷ 0 ∷ 0 ∷ [], 0);
          b = (0 ∷ 0 ∷ 0 ∷ 0 ∷ [], 0);
          server = (0 ∷ 0 ∷ 0 ∷ 0 ∷ [], 0);
          burst = 1;
          turns = 1000;
          live = false;
          report = true;
          output = Lines;
        })) }
    ensures blocks { Say
        (codes "listen" ∷ codes "--blocks" ∷ codes "--session" ∷ codes "MKT" ∷ codes "--a" ∷ codes "0.0.0.0:0"
        ∷ codes "--b" ∷ codes "0.0.0.0:0" ∷ codes "--server" ∷ codes "0.0.0.0:0" ∷ [])
        (listen_wanted (record {
          session = codes "MKT       ";
          next = 1;
          window = 1024;
          a = (0 ∷ 0 ∷ 0 ∷ 0 ∷ [], 0);
          b = (0 ∷ 0 ∷ 0 ∷ 0 ∷ [], 0);
          server = (0 ∷ 0 ∷ 0 ∷ 0 ∷ [], 0);
          burst = 1;
          turns = 1000;
          live = false;
          report = false;
          output = Blocks;
        })) }
    ensures to_empty { Say
        (codes "listen" ∷ codes "--end-at-empty" ∷ codes "--blocks" ∷ codes "--session" ∷ codes "MKT"
        ∷ codes "--a" ∷ codes "0.0.0.0:0" ∷ codes "--b" ∷ codes "0.0.0.0:0" ∷ codes "--server" ∷ codes "0.0.0.0:0"
        ∷ [])
        (listen_wanted (record {
          session = codes "MKT       ";
          next = 1;
          window = 1024;
          a = (0 ∷ 0 ∷ 0 ∷ 0 ∷ [], 0);
          b = (0 ∷ 0 ∷ 0 ∷ 0 ∷ [], 0);
          server = (0 ∷ 0 ∷ 0 ∷ 0 ∷ [], 0);
          burst = 1;
          turns = 1000;
          live = false;
          report = false;
          output = BlocksToEmpty;
        })) }
    ensures no_blocks { order_of
        (codes "listen" ∷ codes "--end-at-empty" ∷ codes "--session" ∷ codes "MKT" ∷ codes "--a" ∷ codes "0.0.0.0:0"
        ∷ codes "--b" ∷ codes "0.0.0.0:0" ∷ codes "--server" ∷ codes "0.0.0.0:0" ∷ []) ≡ None }
{}

/// `receive --session MKT --a ..` is accepted, and asks to print the session `MKT` from message 1 on, received on
/// line A alone, without servers. The other options have their defaults. A line is an address or a descriptor, and
/// each option replaces its default. `--learn` asks for the session of the first packet, and `--from-now` to start at
/// its number. `--blocks` asks to print blocks, and together with `--end-at-empty` to print blocks with an empty block as
/// the mark of the end. Refused are a command without a session, a multicast group, a source of line B without line B, a
/// ceiling below the timeout, a store of 0, nine servers, `--end-at-empty` without `--blocks`, and options that exclude
/// each other.
pub fn receive_taken_law()
    ensures usual { Say
        (codes "receive" ∷ codes "--session" ∷ codes "MKT" ∷ codes "--a" ∷ codes "127.0.0.1:9000" ∷ [])
        (receive_wanted (record {
          session = Some (codes "MKT       ");
          next = Some 1;
          lines = record { a = bound_to (127 ∷ 0 ∷ 0 ∷ 1 ∷ [], 9000); b = None; source_a = None; source_b = None };
          servers = [];
          window = 1048576;
          store = 1024;
          requests = record {
            patience = 0;
            timeout = 50;
            ceiling = 1000;
            requests = 1000;
            in_flight = 256;
            give_up = 0;
            any_responder = false;
          };
          audit = 65536;
          quiet = 0;
          stats = 0;
          output = Lines;
        })) }
    ensures given { Say
        (codes "receive" ∷ codes "--learn" ∷ codes "--from-now" ∷ codes "--a" ∷ codes "fd:3" ∷ codes "--b"
        ∷ codes "fd:1023" ∷ codes "--source-a" ∷ codes "10.0.0.7" ∷ codes "--source-b" ∷ codes "10.0.1.7"
        ∷ codes "--server" ∷ codes "10.0.0.9:26400" ∷ codes "--window" ∷ codes "1" ∷ codes "--server"
        ∷ codes "10.0.0.8:26400" ∷ codes "--any-responder" ∷ codes "--store" ∷ codes "1048576" ∷ codes "--patience"
        ∷ codes "200" ∷ codes "--timeout" ∷ codes "60000" ∷ codes "--ceiling" ∷ codes "60000" ∷ codes "--requests"
        ∷ codes "1" ∷ codes "--in-flight" ∷ codes "4096" ∷ codes "--give-up" ∷ codes "1000" ∷ codes "--audit"
        ∷ codes "0" ∷ codes "--quiet" ∷ codes "86400" ∷ codes "--stats" ∷ codes "60" ∷ codes "--blocks" ∷ [])
        (receive_wanted (record {
          session = None;
          next = None;
          lines = record {
            a = opened_as 3;
            b = Some (opened_as 1023);
            source_a = Some (10 ∷ 0 ∷ 0 ∷ 7 ∷ []);
            source_b = Some (10 ∷ 0 ∷ 1 ∷ 7 ∷ []);
          };
          servers = (10 ∷ 0 ∷ 0 ∷ 9 ∷ [], 26400) ∷ (10 ∷ 0 ∷ 0 ∷ 8 ∷ [], 26400) ∷ [];
          window = 1;
          store = 1048576;
          requests = record {
            patience = 200;
            timeout = 60000;
            ceiling = 60000;
            requests = 1;
            in_flight = 4096;
            give_up = 1000;
            any_responder = true;
          };
          audit = 0;
          quiet = 86400;
          stats = 60;
          output = Blocks;
        })) }
    ensures to_empty { Say
        (codes "receive" ∷ codes "--session" ∷ codes "MKT" ∷ codes "--a" ∷ codes "127.0.0.1:9000"
        ∷ codes "--blocks" ∷ codes "--end-at-empty" ∷ [])
        (receive_wanted (record {
          session = Some (codes "MKT       ");
          next = Some 1;
          lines = record { a = bound_to (127 ∷ 0 ∷ 0 ∷ 1 ∷ [], 9000); b = None; source_a = None; source_b = None };
          servers = [];
          window = 1048576;
          store = 1024;
          requests = record {
            patience = 0;
            timeout = 50;
            ceiling = 1000;
            requests = 1000;
            in_flight = 256;
            give_up = 0;
            any_responder = false;
          };
          audit = 65536;
          quiet = 0;
          stats = 0;
          output = BlocksToEmpty;
        })) }
    ensures no_blocks { order_of
        (codes "receive" ∷ codes "--session" ∷ codes "MKT" ∷ codes "--a" ∷ codes "127.0.0.1:9000"
        ∷ codes "--end-at-empty" ∷ []) ≡ None }
    ensures no_session { order_of (codes "receive" ∷ codes "--a" ∷ codes "127.0.0.1:9000" ∷ []) ≡ None }
    ensures both_sessions { order_of
        (codes "receive" ∷ codes "--a" ∷ codes "127.0.0.1:9000" ∷ codes "--session" ∷ codes "MKT" ∷ codes "--learn"
        ∷ []) ≡ None }
    ensures both_numbers { order_of
        (codes "receive" ∷ codes "--a" ∷ codes "127.0.0.1:9000" ∷ codes "--learn" ∷ codes "--next" ∷ codes "1"
        ∷ codes "--from-now" ∷ []) ≡ None }
    ensures group { order_of
        (codes "receive" ∷ codes "--a" ∷ codes "239.192.1.1:26477" ∷ codes "--learn" ∷ []) ≡ None }
    ensures source { order_of
        (codes "receive" ∷ codes "--a" ∷ codes "127.0.0.1:9000" ∷ codes "--learn" ∷ codes "--source-b"
        ∷ codes "10.0.1.7" ∷ []) ≡ None }
    ensures ceiling { order_of
        (codes "receive" ∷ codes "--a" ∷ codes "127.0.0.1:9000" ∷ codes "--learn" ∷ codes "--timeout"
        ∷ codes "1001" ∷ []) ≡ None }
    ensures store { order_of
        (codes "receive" ∷ codes "--a" ∷ codes "127.0.0.1:9000" ∷ codes "--learn" ∷ codes "--store" ∷ codes "0"
        ∷ []) ≡ None }
    ensures servers { order_of
        (codes "receive" ∷ codes "--a" ∷ codes "fd:3" ∷ codes "--learn" ∷ codes "--server" ∷ codes "10.0.0.9:1"
        ∷ codes "--server" ∷ codes "10.0.0.9:2" ∷ codes "--server" ∷ codes "10.0.0.9:3" ∷ codes "--server"
        ∷ codes "10.0.0.9:4" ∷ codes "--server" ∷ codes "10.0.0.9:5" ∷ codes "--server" ∷ codes "10.0.0.9:6"
        ∷ codes "--server" ∷ codes "10.0.0.9:7" ∷ codes "--server" ∷ codes "10.0.0.9:8" ∷ codes "--server"
        ∷ codes "10.0.0.9:9" ∷ []) ≡ None }
{}

/// With `--journal J`, `receive` asks to keep the session in `J`. `--no-sync` asks not to wait for the disk, and
/// requires `--journal`. A journal starts at message 1, and nothing is given up or printed: `--from-now`, a `--next`
/// above 1, a `--give-up` above 0 and `--blocks` are refused, also with `--end-at-empty`.
pub fn record_taken_law()
    ensures usual { Say
        (codes "receive" ∷ codes "--learn" ∷ codes "--a" ∷ codes "fd:3" ∷ codes "--journal" ∷ codes "J" ∷ [])
        (record_wanted (record {
          receive = record {
            session = None;
            next = Some 1;
            lines = record { a = opened_as 3; b = None; source_a = None; source_b = None };
            servers = [];
            window = 1048576;
            store = 1024;
            requests = record {
              patience = 0;
              timeout = 50;
              ceiling = 1000;
              requests = 1000;
              in_flight = 256;
              give_up = 0;
              any_responder = false;
            };
            audit = 65536;
            quiet = 0;
            stats = 0;
            output = Lines;
          };
          journal = codes "J";
          sync = true;
        })) }
    ensures unsynced { Say
        (codes "receive" ∷ codes "--no-sync" ∷ codes "--learn" ∷ codes "--next" ∷ codes "1" ∷ codes "--a"
        ∷ codes "fd:3" ∷ codes "--give-up" ∷ codes "0" ∷ codes "--journal" ∷ codes "J" ∷ [])
        (record_wanted (record {
          receive = record {
            session = None;
            next = Some 1;
            lines = record { a = opened_as 3; b = None; source_a = None; source_b = None };
            servers = [];
            window = 1048576;
            store = 1024;
            requests = record {
              patience = 0;
              timeout = 50;
              ceiling = 1000;
              requests = 1000;
              in_flight = 256;
              give_up = 0;
              any_responder = false;
            };
            audit = 65536;
            quiet = 0;
            stats = 0;
            output = Lines;
          };
          journal = codes "J";
          sync = false;
        })) }
    ensures no_journal { order_of
        (codes "receive" ∷ codes "--learn" ∷ codes "--a" ∷ codes "fd:3" ∷ codes "--no-sync" ∷ []) ≡ None }
    ensures from_now { order_of
        (codes "receive" ∷ codes "--learn" ∷ codes "--a" ∷ codes "fd:3" ∷ codes "--journal" ∷ codes "J"
        ∷ codes "--from-now" ∷ []) ≡ None }
    ensures next { order_of
        (codes "receive" ∷ codes "--learn" ∷ codes "--a" ∷ codes "fd:3" ∷ codes "--journal" ∷ codes "J"
        ∷ codes "--next" ∷ codes "2" ∷ []) ≡ None }
    ensures give_up { order_of
        (codes "receive" ∷ codes "--learn" ∷ codes "--a" ∷ codes "fd:3" ∷ codes "--journal" ∷ codes "J"
        ∷ codes "--give-up" ∷ codes "1" ∷ []) ≡ None }
    ensures blocks { order_of
        (codes "receive" ∷ codes "--learn" ∷ codes "--a" ∷ codes "fd:3" ∷ codes "--journal" ∷ codes "J"
        ∷ codes "--blocks" ∷ []) ≡ None }
    ensures to_empty { order_of
        (codes "receive" ∷ codes "--learn" ∷ codes "--a" ∷ codes "fd:3" ∷ codes "--journal" ∷ codes "J"
        ∷ codes "--blocks" ∷ codes "--end-at-empty" ∷ []) ≡ None }
{}

/// `loop --session MKT` is accepted, and asks to run the session `MKT` in one process. The limits are 1,400 bytes, the
/// window is 1,024 messages, a request has one response, and there are at most 1,000 rounds. No packet is left out.
/// Messages are lines. `--report` asks for reports of both lines, and `--blocks` for messages as blocks. Together with
/// `--end-at-empty` it asks for blocks up to an empty one. `--end-at-empty` without `--blocks` is refused.
pub fn loop_taken_law()
    ensures usual { Say (codes "loop" ∷ codes "--session" ∷ codes "MKT" ∷ [])
        (loop_wanted (record {
          session = codes "MKT       ";
          limit = 1400;
          server_limit = 1400;
          window = 1024;
          burst = 1;
          drop_a = 0;
          drop_b = 0;
          turns = 1000;
          report = false;
          format = Lines;
        })) }
    ensures report { Say (codes "loop" ∷ codes "--session" ∷ codes "MKT" ∷ codes "--report" ∷ [])
        (loop_wanted (record {
          session = codes "MKT       ";
          limit = 1400;
          server_limit = 1400;
          window = 1024;
          burst = 1;
          drop_a = 0;
          drop_b = 0;
          turns = 1000;
          report = true;
          format = Lines;
        })) }
    ensures blocks { Say (codes "loop" ∷ codes "--session" ∷ codes "MKT" ∷ codes "--blocks" ∷ [])
        (loop_wanted (record {
          session = codes "MKT       ";
          limit = 1400;
          server_limit = 1400;
          window = 1024;
          burst = 1;
          drop_a = 0;
          drop_b = 0;
          turns = 1000;
          report = false;
          format = Blocks;
        })) }
    ensures to_empty { Say
        (codes "loop" ∷ codes "--session" ∷ codes "MKT" ∷ codes "--blocks" ∷ codes "--end-at-empty" ∷ [])
        (loop_wanted (record {
          session = codes "MKT       ";
          limit = 1400;
          server_limit = 1400;
          window = 1024;
          burst = 1;
          drop_a = 0;
          drop_b = 0;
          turns = 1000;
          report = false;
          format = BlocksToEmpty;
        })) }
    ensures no_blocks { order_of
        (codes "loop" ∷ codes "--session" ∷ codes "MKT" ∷ codes "--end-at-empty" ∷ []) ≡ None }
{}

/// `upgrade --journal A --to B` is accepted, and asks to write the journal in `A` to `B`. `--close` asks to close the
/// new journal. Two equal names are refused.
pub fn upgrade_taken_law()
    ensures kept { Say (codes "upgrade" ∷ codes "--journal" ∷ codes "A" ∷ codes "--to" ∷ codes "B" ∷ [])
        (upgrade_wanted (codes "A") (codes "B") false) }
    ensures closed { Say
        (codes "upgrade" ∷ codes "--close" ∷ codes "--journal" ∷ codes "A" ∷ codes "--to" ∷ codes "B" ∷ [])
        (upgrade_wanted (codes "A") (codes "B") true) }
    ensures same { order_of
        (codes "upgrade" ∷ codes "--journal" ∷ codes "A" ∷ codes "--to" ∷ codes "A" ∷ []) ≡ None }
{}

/// `close --journal J` is accepted, and asks to close the journal in `J`.
pub fn close_taken_law()
    ensures { Say (codes "close" ∷ codes "--journal" ∷ codes "J" ∷ []) (close_wanted (codes "J")) }
{}

/// `dump --journal J` is accepted, and asks to print all messages of the journal in `J` from message 1 on, as lines.
/// `--from` sets another first message, and `--count` a maximum number. `--from 0` is refused, and so is a count that
/// does not fit 64 bits. `--blocks` asks to print blocks, and together with `--end-at-empty` to print blocks with an
/// empty block as the mark of the end. `--end-at-empty` without `--blocks` is refused. `--follow` asks to print
/// messages as they are added.
pub fn dump_taken_law()
    ensures usual { Say (codes "dump" ∷ codes "--journal" ∷ codes "J" ∷ [])
        (dump_wanted (record {
          journal = codes "J";
          follow = false;
          from = 1;
          count = 18446744073709551615;
          output = Lines;
        })) }
    ensures given { Say
        (codes "dump" ∷ codes "--count" ∷ codes "0" ∷ codes "--journal" ∷ codes "J"
        ∷ codes "--from" ∷ codes "18446744073709551615" ∷ [])
        (dump_wanted (record {
          journal = codes "J";
          follow = false;
          from = 18446744073709551615;
          count = 0;
          output = Lines;
        })) }
    ensures zero { order_of
        (codes "dump" ∷ codes "--journal" ∷ codes "J" ∷ codes "--from" ∷ codes "0" ∷ []) ≡ None }
    ensures above { order_of
        (codes "dump" ∷ codes "--journal" ∷ codes "J" ∷ codes "--count" ∷ codes "18446744073709551616" ∷ []) ≡ None }
    ensures blocks { Say (codes "dump" ∷ codes "--blocks" ∷ codes "--journal" ∷ codes "J" ∷ [])
        (dump_wanted (record {
          journal = codes "J";
          follow = false;
          from = 1;
          count = 18446744073709551615;
          output = Blocks;
        })) }
    ensures to_empty { Say
        (codes "dump" ∷ codes "--end-at-empty" ∷ codes "--journal" ∷ codes "J" ∷ codes "--blocks" ∷ [])
        (dump_wanted (record {
          journal = codes "J";
          follow = false;
          from = 1;
          count = 18446744073709551615;
          output = BlocksToEmpty;
        })) }
    ensures follow { Say (codes "dump" ∷ codes "--journal" ∷ codes "J" ∷ codes "--follow" ∷ [])
        (dump_wanted (record {
          journal = codes "J";
          follow = true;
          from = 1;
          count = 18446744073709551615;
          output = Lines;
        })) }
    ensures no_blocks { order_of
        (codes "dump" ∷ codes "--journal" ∷ codes "J" ∷ codes "--end-at-empty" ∷ []) ≡ None }
{}

/// `clap` reports help and the version as errors too. For each of `--help`, `show --help`, `--version`, `-V` and the
/// unknown option `show --other`, exactly one kind of error is possible.
pub fn asked_law()
    ensures help { fault_of mold_app (codes "--help" ∷ []) ≡ DisplayHelp ∷ [] }
    ensures show_help { fault_of mold_app (codes "show" ∷ codes "--help" ∷ []) ≡ DisplayHelp ∷ [] }
    ensures version { fault_of mold_app (codes "--version" ∷ []) ≡ DisplayVersion ∷ [] }
    ensures short_version { fault_of mold_app (codes "-V" ∷ []) ≡ DisplayVersion ∷ [] }
    ensures unknown { fault_of mold_app (codes "show" ∷ codes "--other" ∷ [])
        ≡ UnknownArgument ∷ [] }
{}

/// If accepted arguments name a command, it is one of the program's commands.
pub fn own_command_law()
    ensures { (words : List Text) → AreTaken words
        → IfSome (subcommand_of mold_app words) (λ found. IsTrue (is_command found.0)) }
{}
