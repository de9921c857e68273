//! What real programs sent, byte by byte: each ran once against a listener on a loopback port, which kept what came.
//! `bench/record-heads` at the top of the repository does it again.

/// `curl -H 'Auction-Key: k1' http://127.0.0.1:18080/terms/bill13`, curl 7.88.1.
pub const CURL_GET: &str =
    "GET /terms/bill13 HTTP/1.1\r\nHost: 127.0.0.1:18080\r\nUser-Agent: curl/7.88.1\r\nAccept: */*\r\n\
    Auction-Key: k1\r\n\r\n";

/// `curl -H 'Auction-Key: k1' -d MESSAGE http://127.0.0.1:18080/messages`, curl 7.88.1.
pub const CURL_POST: &str =
    "POST /messages HTTP/1.1\r\nHost: 127.0.0.1:18080\r\nUser-Agent: curl/7.88.1\r\nAccept: */*\r\n\
    Auction-Key: k1\r\nContent-Length: 48\r\nContent-Type: application/x-www-form-urlencoded\r\n\r\n\
    {\"number\":1,\"kind\":\"publish\",\"auction\":\"bill13\"}";

/// `urllib.request` of Python 3.11, with the header `Auction-Key: op:root`.
pub const PYTHON_GET: &str =
    "GET /holdings HTTP/1.1\r\nAccept-Encoding: identity\r\nHost: 127.0.0.1:18080\r\n\
    User-Agent: Python-urllib/3.11\r\nAuction-Key: op:root\r\nConnection: close\r\n\r\n";

/// The same with a body.
pub const PYTHON_POST: &str = "POST /messages HTTP/1.1\r\nAccept-Encoding: identity\r\n\
    Content-Type: application/x-www-form-urlencoded\r\nContent-Length: 48\r\nHost: 127.0.0.1:18080\r\n\
    User-Agent: Python-urllib/3.11\r\nAuction-Key: k1\r\nConnection: close\r\n\r\n\
    {\"number\":1,\"kind\":\"publish\",\"auction\":\"bill13\"}";

/// `requests.post` of the Python package requests 2.34.2, which keeps its link.
pub const REQUESTS_POST: &str =
    "POST /messages HTTP/1.1\r\nHost: 127.0.0.1:18080\r\nUser-Agent: python-requests/2.34.2\r\n\
    Accept-Encoding: gzip, deflate\r\nAccept: */*\r\nConnection: keep-alive\r\nAuction-Key: k1\r\nContent-Length: 48\r\n\r\n\
    {\"number\":1,\"kind\":\"publish\",\"auction\":\"bill13\"}";

/// The post of curl through nginx 1.22.1 as a proxy with `proxy_pass http://127.0.0.1:18080;` and nothing else set.
pub const NGINX_POST: &str =
    "POST /messages HTTP/1.0\r\nHost: 127.0.0.1:18080\r\nConnection: close\r\nContent-Length: 48\r\n\
    User-Agent: curl/7.88.1\r\nAccept: */*\r\nAuction-Key: k1\r\nContent-Type: application/x-www-form-urlencoded\r\n\r\n\
    {\"number\":1,\"kind\":\"publish\",\"auction\":\"bill13\"}";
